ghost use Rattle.std.specs.Prelude.{◌≡◌, ℤ, Bool, ◌&&◌};
ghost use Rattle.be_geom.specs.Rects.{rect_has};
ghost use Rattle.be_span.specs.declared.Cell.{Cell};
ghost use Rattle.be_span.specs.Runs.{IsSpanOf, IsInside};
ghost use Rattle.be_span.specs.Painting.{IsPainted};

use be_geom::Rect;
use be_span::{Span, SpanBuf};

/// A stage of a descent, or the ink at its end.
///
/// An ink paints each pixel once, since a stage hands on no pixel twice.
pub trait Lay {
    /// What becomes of the cell of a pixel.
    ghost rule: { Self → ℤ → ℤ → Cell → Cell };

    /// At which pixels.
    ghost at: { Self → ℤ → ℤ → Bool };

    /// Does so to those of a rectangle of the screen, all of it in one span.
    fn lay(&self, spans: &mut SpanBuf, span: Span, area: Rect)
        requires span { IsSpanOf spans.old.rects span }
        requires inside { IsInside area span.rect }
        ensures { IsPainted (rule self.now) (λ x y. rect_has area x y && at self.now x y)
            spans.old spans.new };
}

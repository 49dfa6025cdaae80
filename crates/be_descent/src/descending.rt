ghost use Rattle.std.specs.Prelude.{ℤ, ◌&&◌, not, All};
ghost use Rattle.be_geom.specs.Rects.{rect_has};
ghost use Rattle.be_region.specs.Regions.{IsNotEmpty, region_has};
ghost use Rattle.be_span.specs.Runs.{IsSpanOf, IsInside};
ghost use Rattle.be_span.specs.Painting.{IsPainted};

use crate::cutting::{Cut, cut_at};
use crate::laying::Lay;
use be_geom::Rect;
use be_span::{Span, SpanBuf};

/// Goes on with the pixels of a rectangle that are in none of the frames.
pub(crate) fn below<L: Lay>(frames: &[Rect], spans: &mut SpanBuf, next: &L, span: Span, area: Rect)
    requires span { IsSpanOf spans.old.rects span }
    requires inside { IsInside area span.rect }
    requires frames { All IsNotEmpty frames.now }
    ensures { IsPainted (L.rule next.now) (λ x y. rect_has area x y
        && (not (region_has frames.now x y) && L.at next.now x y)) spans.old spans.new }
{
    let Some((frame, rest)) = frames.split_first() else {
        next.lay(spans, span, area);
        return;
    };
    match cut_at(area, *frame) {
        Cut::Apart => below(rest, spans, next, span, area),
        Cut::Covered => {}
        Cut::Two(out, inner) => {
            below(rest, spans, next, span, out);
            below(frames, spans, next, span, inner);
        }
    }
}

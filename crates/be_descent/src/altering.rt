ghost use Rattle.std.specs.Prelude.{◌≡◌, ℤ, ◌&&◌, true};
ghost use Rattle.be_geom.specs.Rects.{rect_has};

use crate::laying::Lay;
use crate::part::part_in;
use crate::way::HERE;
use be_geom::Rect;
use be_span::{Alter, Span, SpanBuf};

/// The end of a descent that alters pixels, and not their colours alone. It leaves those beside an
/// area.
#[derive(Drop)]
pub struct Altering<'a, A: Alter> {
    pub area: Rect,
    pub alter: &'a A,
    pub ghost known: { (x y : ℤ) → rect_has area x y ≡ true → A.knows alter.now x y ≡ true },
}

impl<A: Alter> Lay for Altering<'_, A> {
    ghost rule = { λ s. A.rule s.alter.now };

    ghost at = { λ s x y. rect_has s.area x y && A.at s.alter.now x y };

    #[inline(always)]
    fn lay(&self, spans: &mut SpanBuf, span: Span, area: Rect) {
        if let Some(part) = part_in(area, self.area, HERE) {
            spans.alter(span, part, self.alter);
        }
    }
}

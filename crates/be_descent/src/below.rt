ghost use Rattle.std.specs.Prelude.{ℤ, ◌&&◌, not, All};
ghost use Rattle.be_region.specs.Regions.{IsNotEmpty, region_has};

use crate::descending::below;
use crate::laying::Lay;
use be_geom::Rect;
use be_span::{Span, SpanBuf};

/// The stage that goes on beside frames in front. It cuts at one edge at a time: a part that is
/// free of a frame goes on to the next frames, and what is left is cut again. It takes no memory,
/// and where no frame meets the area one step for each frame.
#[derive(Drop)]
pub struct Below<'a, L> {
    /// Where they are on the screen.
    pub frames: &'a [Rect],
    pub next: &'a L,
    pub ghost some: { All IsNotEmpty frames.now },
}

impl<L: Lay> Lay for Below<'_, L> {
    ghost rule = { λ s. L.rule s.next.now };

    ghost at = { λ s x y. not (region_has s.frames.now x y) && L.at s.next.now x y };

    fn lay(&self, spans: &mut SpanBuf, span: Span, area: Rect) {
        below(self.frames, spans, self.next, span, area);
    }
}

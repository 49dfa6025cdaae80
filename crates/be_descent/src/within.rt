ghost use Rattle.std.specs.Prelude.{ℤ, ◌&&◌};
ghost use Rattle.be_descent.specs.Places.{lies_at};

use crate::laying::Lay;
use crate::walk::next_in;
use crate::way::Way;
use be_geom::Rect;
use be_region::Region;
use be_span::{Span, SpanBuf};

/// The stage that goes on within a region: a session's or a clip's. It finds the first rectangle
/// that has pixels of the area by bisection, goes on to the next one, and bisects again only past
/// those beside the area.
#[derive(Clone, Copy)]
pub struct Within<'a, L> {
    pub region: &'a Region,
    /// Where the region lies on the screen.
    pub way: Way,
    pub next: &'a L,
}

impl<L: Lay> Lay for Within<'_, L> {
    ghost rule = { λ s. L.rule s.next.now };

    ghost at = { λ s x y. lies_at s.region.now s.way x y && L.at s.next.now x y };

    fn lay(&self, spans: &mut SpanBuf, span: Span, area: Rect) {
        let mut place = 0;
        while let Some(found) = next_in(self.region, place, self.way, area) {
            self.next.lay(spans, span, found.part);
            place = found.after;
        }
    }
}

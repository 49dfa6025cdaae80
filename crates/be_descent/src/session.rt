ghost use Rattle.std.specs.Prelude.{ℤ, ◌&&◌, option_map};
ghost use Rattle.be_descent.specs.Places.{session_has};

use crate::laying::Lay;
use crate::way::Way;
use crate::within::Within;
use be_geom::Rect;
use be_region::Region;
use be_span::{Span, SpanBuf};

/// The stage that goes on where an open update may draw, as `Within` does. It goes on everywhere
/// while no update is open.
#[derive(Clone, Copy)]
pub struct Session<'a, L> {
    /// The pixels that the update may draw. None while none is open.
    pub region: Option<&'a Region>,
    /// Where the region lies on the screen: where the window's left top is.
    pub way: Way,
    pub next: &'a L,
}

impl<L: Lay> Lay for Session<'_, L> {
    ghost rule = { λ s. L.rule s.next.now };

    ghost at = { λ s x y. session_has (option_map (λ r. r.now) s.region) s.way x y
        && L.at s.next.now x y };

    fn lay(&self, spans: &mut SpanBuf, span: Span, area: Rect) {
        match self.region {
            Some(region) => {
                let within = Within {
                    region,
                    way: self.way,
                    next: self.next,
                };
                within.lay(spans, span, area);
            }
            None => self.next.lay(spans, span, area),
        }
    }
}

ghost use Rattle.std.specs.Prelude.{ℤ, ◌&&◌};
ghost use Rattle.be_geom.specs.Places.{IsNear};
ghost use Rattle.be_descent.specs.Clips.{states_allow};

use crate::clipping::within_first;
use crate::laying::Lay;
use crate::way::Way;
use be_geom::Rect;
use be_span::{Span, SpanBuf};
use be_state::StateStack;

/// The stage that goes on where every clip of a view's states is, as `Within` does for one region.
#[derive(Drop)]
pub struct Clips<'a, L> {
    pub states: &'a StateStack,
    /// Where the view's left top is on the screen.
    pub corner: Way,
    pub next: &'a L,
    pub ghost near: { IsNear 64 corner.right × IsNear 64 corner.down },
}

impl<L: Lay> Lay for Clips<'_, L> {
    ghost rule = { λ s. L.rule s.next.now };

    ghost at = { λ s x y. states_allow s.states.now s.corner x y && L.at s.next.now x y };

    fn lay(&self, spans: &mut SpanBuf, span: Span, area: Rect) {
        let count = self.states.saved() + 1;
        within_first(
            self.states,
            count,
            self.corner,
            spans,
            self.next,
            span,
            area,
        );
    }
}

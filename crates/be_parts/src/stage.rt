ghost use Rattle.std.specs.Prelude.{◌≡◌};
ghost use Rattle.be_parts.specs.Stages.{stage_at, stage_of};

use be_actor::Place;
use be_geom::Rect;

/// How far a looper is with the message in its hand.
#[derive(Debug, Drop)]
pub enum Stage {
    /// In the body to which the message was routed.
    InBody(Place),
    /// With a notice of an update that isn't begun.
    Beginning,
    /// In the Draw bodies of these views, one after the other; each view with the smallest
    /// rectangle round its pixels that wait, in its own coordinates.
    InUpdate(Vec<(u16, Rect)>, Place),
    /// With a notice of which only the end is left.
    Ending,
}

impl Stage {
    /// At another place of the body, or of the Draw bodies. Elsewhere there is none.
    pub(crate) fn go_to(&mut self, place: Place)
        ensures { stage_of self.new ≡ stage_at place (stage_of self.old) }
    {
        match self {
            Stage::InBody(at) => *at = place,
            Stage::InUpdate(_, at) => *at = place,
            Stage::Beginning | Stage::Ending => {}
        }
    }
}

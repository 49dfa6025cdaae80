ghost use Rattle.std.specs.Prelude.{◌≡◌};

use be_geom::NoMemory;
use thiserror::Error;

/// Why a change isn't planned.
#[derive(Clone, Copy, Debug, PartialEq, Eq, Error)]
pub enum PlanFault {
    /// The window is closed, or the one that it was to go behind.
    #[error("the window is closed")]
    Gone,
    /// A coordinate of the new frame, or of a view's in a resize, would leave -32768 to 32767.
    #[error("a frame leaves the range")]
    OffRange,
    /// There was no memory left.
    #[error("no memory")]
    NoMemory,
}

impl From<NoMemory> for PlanFault {
    ghost use Rattle.be_desk.specs.declared.fault.PlanFault.TheVariants.{NoMemory};

    ghost from_gives = { λ _ fault. fault ≡ NoMemory };

    fn from(_error: NoMemory) -> PlanFault {
        PlanFault::NoMemory
    }
}

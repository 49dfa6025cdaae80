ghost use Rattle.std.specs.Prelude.{◌≡◌};

use be_geom::NoMemory;
use thiserror::Error;

/// Why no update begins.
#[derive(Clone, Copy, Debug, PartialEq, Eq, Error)]
pub enum UpdateFault {
    /// An update is under way.
    #[error("an update is under way")]
    InSession,
    /// No pixel of the window waits.
    #[error("nothing waits to be drawn")]
    NothingDirty,
    /// There was no memory left.
    #[error("no memory")]
    NoMemory,
}

impl From<NoMemory> for UpdateFault {
    ghost use Rattle.be_update.specs.declared.fault.UpdateFault.TheVariants.{NoMemory};

    ghost from_gives = { λ _ fault. fault ≡ NoMemory };

    fn from(_error: NoMemory) -> UpdateFault {
        UpdateFault::NoMemory
    }
}

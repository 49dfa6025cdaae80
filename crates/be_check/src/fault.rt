use be_geom::NoMemory;
use thiserror::Error;

/// Why a history isn't said to be finished.
#[derive(Clone, Copy, Debug, PartialEq, Eq, Error)]
pub enum CheckFault {
    /// The entry of this number, counted from 1, is the first that isn't legal. One past the last:
    /// all are legal, and the last isn't Stop.
    #[error("illegal entry {0}")]
    Illegal(u64),
    #[error("no memory")]
    NoMemory,
}

impl From<NoMemory> for CheckFault {
    ghost use Rattle.std.specs.Prelude.{◌≡◌};
    ghost use Rattle.be_check.specs.declared.fault.CheckFault.TheVariants.{NoMemory};

    ghost from_gives = { λ _ fault. fault ≡ NoMemory };

    fn from(_error: NoMemory) -> CheckFault {
        CheckFault::NoMemory
    }
}

ghost use Rattle.std.specs.Prelude.{◌≡◌};

use be_geom::NoMemory;
use thiserror::Error;

/// Why a view wasn't added.
#[derive(Clone, Copy, Debug, PartialEq, Eq, Error)]
pub enum ViewFault {
    /// There is no view of that number.
    #[error("no such view")]
    NoView,
    /// The parent is at depth 8.
    #[error("too deep")]
    TooDeep,
    /// There are 32 views.
    #[error("too many views")]
    TooMany,
    /// There was no memory left.
    #[error("no memory")]
    NoMemory,
}

/// Why a view has no clip.
#[derive(Clone, Copy, Debug, PartialEq, Eq, Error)]
pub enum ClipFault {
    /// There is no view of that number.
    #[error("no such view")]
    NoView,
    /// There was no memory left.
    #[error("no memory")]
    NoMemory,
}

impl From<NoMemory> for ViewFault {
    ghost use Rattle.be_views.specs.declared.fault.ViewFault.TheVariants.{NoMemory};

    ghost from_gives = { λ _ fault. fault ≡ NoMemory };

    fn from(_error: NoMemory) -> ViewFault {
        ViewFault::NoMemory
    }
}

impl From<NoMemory> for ClipFault {
    ghost use Rattle.be_views.specs.declared.fault.ClipFault.TheVariants.{NoMemory};

    ghost from_gives = { λ _ fault. fault ≡ NoMemory };

    fn from(_error: NoMemory) -> ClipFault {
        ClipFault::NoMemory
    }
}

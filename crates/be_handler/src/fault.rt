ghost use Rattle.std.specs.Prelude.{◌≡◌};
ghost use Rattle.be_handler.specs.declared.fault.ChainFault.TheVariants.{NoMemory};

use be_geom::NoMemory;
use thiserror::Error;

/// Why a view, plain handler, filter or body was not added.
#[derive(Clone, Copy, Debug, PartialEq, Eq, Error)]
pub enum ChainFault {
    /// A handler that is named isn't there, or a second root was to be added.
    #[error("no such handler")]
    NoTarget,
    /// The window has 32 views, 16 plain handlers or 512 bodies, or the list 32 filters.
    #[error("too many of them")]
    TooMany,
    /// There was no memory left.
    #[error("no memory")]
    NoMemory,
}

impl From<NoMemory> for ChainFault {
    ghost from_gives = { λ _ fault. fault ≡ NoMemory };

    fn from(_error: NoMemory) -> ChainFault {
        ChainFault::NoMemory
    }
}

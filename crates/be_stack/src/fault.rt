ghost use Rattle.std.specs.Prelude.{◌≡◌};
ghost use Rattle.be_stack.specs.declared.fault.StackFault.TheVariants.{NoMemory};

use be_geom::NoMemory;
use thiserror::Error;

/// Why a window wasn't added.
#[derive(Clone, Copy, Debug, PartialEq, Eq, Error)]
pub enum StackFault {
    /// The frame is empty, or its right edge less the left one or its bottom edge less the top one
    /// is above 32767.
    #[error("the frame is empty or too large")]
    BadFrame,
    /// There are 32 windows.
    #[error("too many windows")]
    TooMany,
    /// There was no memory left.
    #[error("no memory")]
    NoMemory,
}

impl From<NoMemory> for StackFault {
    ghost from_gives = { λ _ fault. fault ≡ NoMemory };

    fn from(_error: NoMemory) -> StackFault {
        StackFault::NoMemory
    }
}

/// Why a window wasn't changed.
#[derive(Clone, Copy, Debug, PartialEq, Eq, Error)]
pub enum ChangeFault {
    /// The window is closed, or the one that it was to go behind.
    #[error("the window is closed")]
    Gone,
    /// A coordinate of the new frame would leave -32768 to 32767.
    #[error("the frame leaves the range")]
    OffRange,
}

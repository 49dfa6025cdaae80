ghost use Rattle.std.specs.Prelude.{◌≡◌};

use be_geom::NoMemory;
use std::alloc::{AllocError, AllocFailed};
use thiserror::Error;

/// Why bytes are no flattened message. Places are counted from 0.
#[derive(Clone, Copy, Debug, PartialEq, Eq, Error)]
pub enum FlatError {
    /// There are too few bytes: a part isn't whole.
    #[error("the bytes end inside a part, after {at}")]
    Truncated {
        /// How many bytes there are.
        at: usize,
    },
    /// No message has this byte behind those before it.
    #[error("byte {at} has no place in a message")]
    BadByte {
        /// The place of the byte.
        at: usize,
    },
    /// The message ends and further bytes follow.
    #[error("the message ends at {at}, before the bytes do")]
    Extra {
        /// The place of the first byte behind the message.
        at: usize,
    },
    /// There was no memory left.
    #[error("no memory")]
    NoMemory,
}

impl From<NoMemory> for FlatError {
    ghost use Rattle.be_flat.specs.declared.fault.FlatError.TheVariants as errors;

    ghost from_gives = { λ _ e. e ≡ errors.NoMemory };

    fn from(_error: NoMemory) -> FlatError {
        FlatError::NoMemory
    }
}

impl From<AllocError> for FlatError {
    ghost use Rattle.be_flat.specs.declared.fault.FlatError.TheVariants as errors;

    ghost from_gives = { λ _ e. e ≡ errors.NoMemory };

    fn from(_error: AllocError) -> FlatError {
        FlatError::NoMemory
    }
}

impl<T: Drop> From<AllocFailed<T>> for FlatError {
    ghost use Rattle.be_flat.specs.declared.fault.FlatError.TheVariants as errors;

    ghost from_gives = { λ _ e. e ≡ errors.NoMemory };

    fn from(_error: AllocFailed<T>) -> FlatError {
        FlatError::NoMemory
    }
}

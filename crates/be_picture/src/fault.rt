ghost use Rattle.std.specs.Prelude.{◌≡◌};
ghost use Rattle.be_picture.specs.Faults.{fault_at};

use be_command::{Command, Reason};
use thiserror::Error;

/// Why a command wasn't recorded; it is handed back.
#[derive(Debug, Drop, Error)]
pub enum RecordFault {
    /// It doesn't draw, or sets no drawing state, or its view isn't the one with the number 0.
    #[error("no drawing command")]
    NotDrawing(Command),
    /// It takes a drawing state back, and none is open.
    #[error("no state is open")]
    Unbalanced(Command),
    /// It saves a drawing state, and 15 are open.
    #[error("too many states are open")]
    TooDeep(Command),
    /// There are 4,096 commands.
    #[error("too many commands")]
    TooMany(Command),
    /// There was no memory left.
    #[error("no memory")]
    NoMemory(Command),
}

/// Why bytes aren't a picture.
#[derive(Clone, Copy, Debug, PartialEq, Eq, Error)]
pub enum PictureFault {
    /// The first faulty line, from 1; 0 where no line has the fault.
    #[error("picture line {line}: {reason:?}")]
    At { line: u64, reason: Reason },
    #[error("no memory")]
    NoMemory,
}

/// Why a line isn't taken.
#[derive(Clone, Copy)]
pub(crate) enum LineFault {
    Bad(Reason),
    NoMemory,
}

impl LineFault {
    /// This fault as that of the line with this number.
    pub(crate) fn at(self, line: u64) -> PictureFault
        ensures { result ≡ fault_at line self }
    {
        match self {
            LineFault::Bad(reason) => PictureFault::At { line, reason },
            LineFault::NoMemory => PictureFault::NoMemory,
        }
    }
}

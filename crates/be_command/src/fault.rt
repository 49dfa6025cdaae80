ghost use Rattle.std.specs.Prelude.{◌≡◌};
ghost use Rattle.be_command.specs.Faults.{rank_of, first_of};
ghost use Rattle.be_command.specs.declared.fault.NameFault.TheVariants.{NoMemory};
ghost use Rattle.be_command.specs.declared.fault.CommandFault.TheVariants as command;

use be_geom::NoMemory;
use std::alloc::{AllocError, AllocFailed};
use thiserror::Error;

/// Why a line is refused. Of a line it is the first of these that holds.
#[derive(Clone, Copy, Debug, PartialEq, Eq)]
pub enum Reason {
    /// The script has more than 1,048,576 bytes, or a history with its script more than 67,108,864.
    TooLong,
    /// The line has more than 2,048 bytes.
    LongLine,
    /// A byte isn't 32 to 126.
    BadByte,
    /// No line begins with this word.
    UnknownWord,
    /// The first word has no place here: before or behind the screen, inside or outside a body.
    Place,
    /// The instruction or command isn't allowed in this kind of body, or a lock is nested, missing
    /// or left standing.
    NotHere,
    /// A word has the wrong form, is missing or is one too many.
    Shape,
    /// A number is outside its range, a rectangle outside its rule, or an input place off the
    /// screen.
    Range,
    /// A declared name or body is there already, or is a name that can't be declared.
    NameTaken,
    /// A name isn't declared.
    UnknownName,
    /// A limit on counts or depth is passed.
    TooMany,
    /// A line of a history isn't one.
    BadEntry,
    /// There is no screen, or the script ends inside a body or a bitmap.
    Unfinished,
    /// The work exceeds 262,144.
    TooMuchWork,
}

/// Why a line isn't a command.
#[derive(Clone, Copy, Debug, PartialEq, Eq, Error)]
pub enum CommandFault {
    /// The place of the first word at which the reason holds, counted from 0. A missing word stands
    /// at the number of words.
    #[error("word {at}: {reason:?}")]
    BadCommand { at: usize, reason: Reason },
    #[error("no memory")]
    NoMemory,
}

/// Why a name isn't added.
#[derive(Clone, Copy, Debug, PartialEq, Eq, Error)]
pub enum NameFault {
    /// It isn't 1 to 16 of a to z, 0 to 9 and `_`, a letter first.
    #[error("bad name")]
    BadName,
    /// It stands beside the others already, or is `window`, `root`, `common` or `none`.
    #[error("name taken")]
    NameTaken,
    #[error("too many")]
    TooMany,
    #[error("no memory")]
    NoMemory,
}

// What is wrong with a word of a line, and the place of the word.
#[derive(Clone, Copy, Debug, PartialEq, Eq)]
pub(crate) struct Fault {
    pub(crate) at: usize,
    pub(crate) reason: Reason,
}

impl Fault {
    // Of two faults of a line the one that counts; the other is of an earlier word.
    pub(crate) fn or(self, earlier: Fault) -> Fault
        ensures { result ≡ first_of earlier self }
    {
        if self.reason.rank() < earlier.reason.rank() {
            self
        } else {
            earlier
        }
    }
}

impl Reason {
    /// Its place in the order in which reasons are looked for.
    pub fn rank(self) -> u8
        ensures { result ≡ rank_of self }
    {
        self as u8
    }
}

impl From<AllocError> for NameFault {
    ghost from_gives = { λ _ fault. fault ≡ NoMemory };

    fn from(_error: AllocError) -> NameFault {
        NameFault::NoMemory
    }
}

impl<T: Drop> From<AllocFailed<T>> for NameFault {
    ghost from_gives = { λ _ fault. fault ≡ NoMemory };

    fn from(_error: AllocFailed<T>) -> NameFault {
        NameFault::NoMemory
    }
}

impl From<NoMemory> for CommandFault {
    ghost from_gives = { λ _ fault. fault ≡ command.NoMemory };

    fn from(_error: NoMemory) -> CommandFault {
        CommandFault::NoMemory
    }
}

ghost use Rattle.std.specs.Prelude.{◌≡◌, [], ◌∷◌, ◌++◌, None, Some, IfErr, OnErr, OnOk, length};
ghost use Rattle.std.specs.Prelude.{nat_le, if◌then◌else◌};
ghost use Rattle.be_picture.specs.Faults.{IsJudged, IsRecordFault};
ghost use Rattle.be_picture.specs.Recording.{open_pushes, refusal};
ghost use Rattle.be_picture.specs.Sorts.{sort_of};
ghost use Rattle.be_picture.specs.Text.{is_unbalanced};
ghost use Rattle.be_command.specs.declared.Command.{Command};

use crate::fault::RecordFault;
use crate::picture::Picture;
use crate::sorts::{Sort, sort_of};
use be_command::Command;
use std::alloc::Global;
use std::marker::Model;

/// How many states a picture may have open.
const MOST_OPEN: u8 = 15;

/// How many commands a picture may have.
const MOST_COMMANDS: usize = 4096;

/// A picture that is being recorded: what `BView::BeginPicture` begins.
#[derive(Debug, Drop)]
pub struct Recorder {
    commands: Vec<Command>,
    // How many of the states that it saves are open.
    pushes: u8,
}

impl Model for Recorder {
    ghost use Rattle.std.specs.Prelude.{◌≡◌, ◌≤◌, List, length};
    ghost use Rattle.be_command.specs.declared.Command.{Command};
    ghost use Rattle.be_picture.specs.Recording.{IsRecorded, open_pushes};

    ghost Value = { List Command };

    ghost view = { λ recorder. recorder.commands.items };

    ghost invariant = { λ recorder. IsRecorded recorder.commands.items
        × (recorder.pushes ≡ open_pushes recorder.commands.items) × (recorder.pushes ≤ 15) };
}

impl Recorder {
    /// A recorder without commands. It takes no memory.
    pub fn new(alloc: Global) -> Recorder
        ensures { result ≡ [] }
    {
        Recorder {
            commands: Vec::new(alloc),
            pushes: 0,
        }
    }

    /// Records a command, behind those that there are.
    pub fn record(&mut self, command: Command) -> Result<(), RecordFault>
        ensures ok { OnOk result (refusal self.old command ≡ None) }
        ensures recorded { OnOk result (self.new ≡ self.old ++ command ∷ []) }
        ensures fault { IfErr result
            (λ fault. IsRecordFault fault command (refusal self.old command)) }
        ensures stays { OnErr result (self.new ≡ self.old) }
    {
        match self.judge(&command) {
            Judged::NotDrawing => Err(RecordFault::NotDrawing(command)),
            Judged::Unbalanced => Err(RecordFault::Unbalanced(command)),
            Judged::TooDeep => Err(RecordFault::TooDeep(command)),
            Judged::TooMany => Err(RecordFault::TooMany(command)),
            Judged::Recorded(pushes) => match self.commands.push(command) {
                Ok(()) => {
                    self.pushes = pushes;
                    Ok(())
                }
                Err(failed) => Err(RecordFault::NoMemory(failed.value)),
            },
        }
    }

    /// The picture of what was recorded: `BView::EndPicture`.
    pub fn finish(self) -> Picture
        ensures { result ≡ self }
    {
        Picture {
            commands: self.commands,
            pushes: self.pushes,
        }
    }

    // What comes of a command behind those that there are.
    fn judge(&self, command: &Command) -> Judged
        ensures { IsJudged self.now command.now result }
    {
        match sort_of(command) {
            Some(sort) => self.judge_sort(sort),
            None => Judged::NotDrawing,
        }
    }

    /// Whether a line with this first word would close a state that isn't open, or open one too
    /// many.
    pub(crate) fn is_unbalanced(&self, word: &[u8]) -> bool
        ensures { result ≡ is_unbalanced (open_pushes self.now) word.now }
    {
        if word == b"pop".as_slice() {
            self.pushes == 0
        } else {
            word == b"push".as_slice() && self.pushes >= MOST_OPEN
        }
    }

    fn judge_sort(&self, sort: Sort) -> Judged
        ensures { (c : Command) → sort_of c ≡ Some sort → IsJudged self.now c result }
    {
        match sort {
            Sort::Opens if self.pushes >= MOST_OPEN => Judged::TooDeep,
            Sort::Opens => self.unless_full(self.pushes + 1),
            Sort::Closes if self.pushes == 0 => Judged::Unbalanced,
            Sort::Closes => self.unless_full(self.pushes - 1),
            Sort::Stays => self.unless_full(self.pushes),
        }
    }

    fn unless_full(&self, pushes: u8) -> Judged
        ensures { result ≡ (if nat_le 4096 (length self.now) then Judged.TooMany
            else Judged.Recorded pushes) }
    {
        if self.commands.len() >= MOST_COMMANDS {
            Judged::TooMany
        } else {
            Judged::Recorded(pushes)
        }
    }
}

// What comes of a command, and how many states are open behind it.
#[derive(Clone, Copy)]
enum Judged {
    NotDrawing,
    Unbalanced,
    TooDeep,
    TooMany,
    Recorded(u8),
}

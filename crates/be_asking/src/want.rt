use crate::activity::Runner;
use be_actor::Draft;
use be_command::Command;
use be_message::{Target, Text};
use be_script::InputLine;

/// What an instruction asks for. A message isn't made yet: its draft is the instruction's.
#[derive(Clone, Copy)]
pub enum Request<'a> {
    Note(&'a Text),
    Post(u16, Target, &'a Draft),
    Send(u16, Target, &'a Draft),
    Forward(u16, Target),
    Reply(&'a Draft),
    Claim,
    Lock(u16),
    Unlock,
    Flush,
    SyncDone,
    Draw(&'a Command),
}

/// What an activity wants next. The number is a window's.
#[derive(Clone, Copy)]
pub enum Want<'a> {
    Asks(Runner, Request<'a>),
    /// A letter.
    Takes(u16),
    /// An update.
    Begins(u16),
    /// Room in the buffer, or an empty one, before what comes next.
    Flushes(u16),
    /// The command that ends an update.
    DrawsEnd(u16),
    /// The end of the message in hand.
    Ends(u16),
    Notifies(u16),
    Executes(u16),
    Uses(&'a InputLine),
    Stops,
}

/// What the parts in hand tell of what an activity wants.
#[derive(Clone, Copy)]
pub enum Wanted<'a> {
    Wants(Want<'a>),
    /// The part at this place is needed to tell.
    Needs(u32),
    /// It wants nothing any more.
    Nothing,
}

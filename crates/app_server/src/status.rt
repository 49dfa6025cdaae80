ghost use Rattle.std.specs.Prelude.{◌≡◌};
ghost use Rattle.app_server.specs.Statuses.{number_of};

use be_command::Reason;
use thiserror::Error;

/// How a call of the server ended.
#[derive(Clone, Copy, Debug, PartialEq, Eq, Error)]
pub enum Status {
    #[error("finished")]
    Finished,
    #[error("illegal entry {entry}")]
    Illegal { entry: u64 },
    #[error("usage: app_server run | serial S | check | make N | drill N | replay | explain X Y | picture W H | archive N | unarchive | buttons")]
    Usage,
    #[error("script line {line}: {reason:?}")]
    BadScript { line: u64, reason: Reason },
    #[error("read fault")]
    ReadFault,
    #[error("write fault")]
    WriteFault,
    #[error("no memory")]
    NoMemory,
}

impl Status {
    /// The program's exit status.
    pub fn number(self) -> u8
        ensures { result ≡ number_of self }
    {
        match self {
            Status::Finished => 0,
            Status::Illegal { .. } => 1,
            Status::Usage => 2,
            Status::BadScript { .. } => 3,
            Status::ReadFault => 4,
            Status::WriteFault => 5,
            Status::NoMemory => 7,
        }
    }
}

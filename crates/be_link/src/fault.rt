use be_command::Command;
use thiserror::Error;

/// The buffer holds 32 commands; the one that was to come behind them is handed back.
#[derive(Debug, Drop, Error)]
#[error("the buffer holds 32 commands")]
pub struct BufferFull {
    pub command: Command,
}

/// The commands of the buffer and those of the link are more than 256 together.
#[derive(Clone, Copy, Debug, PartialEq, Eq, Error)]
#[error("the link has no room for the buffer's commands")]
pub struct LinkFull;

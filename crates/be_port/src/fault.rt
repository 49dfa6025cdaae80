use crate::Letter;
use thiserror::Error;

/// Why a letter was not accepted; it is handed back.
#[derive(Debug, Drop, Error)]
pub enum PostFault {
    /// The port is closed.
    #[error("the port is closed")]
    BadPort(Letter),
    /// It would be the ninth message in a row that one makes while another is handled.
    #[error("too many messages made one another")]
    TooDeep(Letter),
    /// So many letters stand in the port, and it holds no more: `B_WOULD_BLOCK`.
    #[error("{len} letters stand in the port")]
    WouldBlock { len: u32, letter: Letter },
}

/// Why an update notice was not accepted; it is handed back.
#[derive(Debug, Drop, Error)]
pub enum NoticeFault {
    /// The port is closed.
    #[error("the port is closed")]
    BadPort(Letter),
    /// An earlier notice still stands in the port.
    #[error("a notice stands already")]
    Standing(Letter),
}

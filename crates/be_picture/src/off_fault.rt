use crate::off_screen::OffScreen;
use thiserror::Error;

/// Why there is no bitmap of a size off the screen.
#[derive(Clone, Copy, Debug, PartialEq, Eq, Error)]
pub enum OffFault {
    /// A side is 0.
    #[error("an empty bitmap")]
    Empty,
    /// A side is above 256.
    #[error("a side above 256")]
    TooLarge,
    #[error("no memory")]
    NoMemory,
}

/// Why pixels aren't a bitmap yet.
#[derive(Debug, Drop, Error)]
pub enum IntoFault {
    /// There was no memory left; what was drawn is handed back.
    #[error("no memory")]
    NoMemory(OffScreen),
}

use thiserror::Error;

/// Why a message wasn't read as a tree.
#[derive(Clone, Copy, Debug, PartialEq, Eq, Error)]
pub enum ArchiveFault {
    /// Its `what` or its fields aren't those of an archive.
    #[error("no archive")]
    NotArchive,
    /// A coordinate of the size is below 0.
    #[error("bad size")]
    BadSize,
    /// There are more than 31 views beside the root.
    #[error("too many views")]
    TooMany,
    /// The parent of the view doesn't stand before it or is at depth 8, or its mode is none.
    #[error("view {view} can't be")]
    BadView { view: u16 },
    /// There was no memory left.
    #[error("no memory")]
    NoMemory,
}

//! Why a hall stays open.
use crate::hall::Hall;
use crate::parts::Parts;
use crate::pass::Pass;

/// Why a hall stays open. Hall and pass come back as they were.
#[derive(Drop)]
pub enum CloseFault<P: Parts + Drop> {
    /// The clock counts `clock` commits, and the pass with those joined into it made `gathered`.
    Unjoined {
        clock: u64,
        gathered: u64,
        hall: Hall<P>,
        pass: Pass<P>,
    },
    /// There was no memory for the history.
    NoMemory {
        hall: Hall<P>,
        pass: Pass<P>,
    },
}

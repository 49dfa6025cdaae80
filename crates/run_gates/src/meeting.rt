//! Two activities wait for each other.

use std::sync::atomic::{AtomicU64, Ordering};
use std::thread;

/// How often a flag is loaded before its gate gives up.
const PATIENCE: u32 = 200_000_000;

/// After so many loads another thread gets the processor.
const TURNS: u32 = 1024;

/// How many came, and whether one of them gave up.
#[derive(Drop)]
pub(crate) struct Meeting {
    arrived: AtomicU64,
    failed: AtomicU64,
}

impl Meeting {
    pub(crate) fn new() -> Meeting {
        Meeting {
            arrived: AtomicU64::new(0),
            failed: AtomicU64::new(0),
        }
    }

    /// One more has come. Its number is counted from 1.
    pub(crate) fn arrive(&self) -> u64 {
        self.arrived
            .fetch_add(1, Ordering::SeqCst)
            .saturating_add(1)
    }

    /// Turns until two have come, or gives up.
    pub(crate) fn wait_for_two(&self) {
        for turn in 0..PATIENCE {
            if self.arrived.load(Ordering::SeqCst) >= 2 {
                return;
            }
            if turn % TURNS == 0 {
                thread::yield_now();
            }
        }
        self.failed.store(1, Ordering::SeqCst);
    }

    /// Two have come, and nobody gave up.
    pub(crate) fn has_met(&self) -> bool {
        self.arrived.load(Ordering::SeqCst) >= 2 && self.failed.load(Ordering::SeqCst) == 0
    }
}

//! A set of activities for each place.

use be_geom::NoMemory;
use std::alloc::Global;
use std::sync::atomic::{AtomicU64, Ordering};

/// A set for each place. There are at most 128 activities.
#[derive(Drop)]
pub(crate) struct Sets {
    // Two words for each place: a bit for each activity.
    words: Vec<AtomicU64>,
}

/// The activities that stood in a set.
#[derive(Clone, Copy)]
pub(crate) struct Set {
    low: u64,
    high: u64,
}

// How often an activity tries to put itself in where others do so at once.
const TRIES: u32 = 4;

impl Sets {
    /// All sets are empty.
    pub(crate) fn new(alloc: Global, places: u32) -> Result<Sets, NoMemory> {
        let many = places as usize * 2;
        let mut words = Vec::with_capacity(alloc, many)?;
        for _ in 0..many {
            words.push(AtomicU64::new(0))?;
        }
        Ok(Sets { words })
    }

    /// Puts the activity in. Where several change one set at once it may be left out, but never
    /// where no other does.
    pub(crate) fn add(&self, place: u32, who: u32) {
        let Some(word) = self.words.get(place as usize * 2 + who as usize / 64) else {
            return;
        };
        for _ in 0..TRIES {
            let seen = word.load(Ordering::SeqCst);
            let more = seen | 1 << (who % 64);
            if word
                .compare_exchange(seen, more, Ordering::SeqCst, Ordering::SeqCst)
                .is_ok()
            {
                return;
            }
        }
    }

    /// Takes all out.
    pub(crate) fn take(&self, place: u32) -> Set {
        let first = place as usize * 2;
        Set {
            low: take_bits(self.words.get(first)),
            high: take_bits(self.words.get(first + 1)),
        }
    }
}

// A word that is 0 isn't written: mostly nobody stands there, and others read it.
fn take_bits(word: Option<&AtomicU64>) -> u64 {
    match word {
        Some(word) if word.load(Ordering::SeqCst) != 0 => word.swap(0, Ordering::SeqCst),
        Some(_) | None => 0,
    }
}

impl Set {
    pub(crate) fn is_empty(self) -> bool {
        self.low == 0 && self.high == 0
    }

    pub(crate) fn has(self, who: u32) -> bool {
        let bits = if who < 64 { self.low } else { self.high };
        (bits >> (who % 64)) % 2 == 1
    }
}

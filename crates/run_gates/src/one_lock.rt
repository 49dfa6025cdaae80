//! A run under one lock.

use be_outside::{Gate, Spot};
use std::sync::Wait;
use std::sync::atomic::{AtomicU64, Ordering};

/// One lock around each turn, and around the calls of another gate in it. A run with it does what a
/// run under one lock would: while one activity is held, nobody else comes to a spot.
#[derive(Drop)]
pub struct OneLock<'a, R: Wait, G> {
    rt: &'a R,
    gate: &'a G,
    // 1 while a turn has the lock.
    taken: AtomicU64,
}

impl<'a, R: Wait, G: Gate> OneLock<'a, R, G> {
    /// The lock, which nobody has, around another gate.
    pub fn new(rt: &'a R, gate: &'a G) -> OneLock<'a, R, G> {
        OneLock {
            rt,
            gate,
            taken: AtomicU64::new(0),
        }
    }

    fn lock(&self) {
        for _round in self.rt.forever() {
            if self.taken.swap(1, Ordering::SeqCst) == 0 {
                return;
            }
            self.taken.park(self.rt, 1);
        }
        unreachable!()
    }

    fn unlock(&self) {
        self.taken.store(0, Ordering::SeqCst);
        self.taken.wake_one();
    }
}

impl<R: Wait, G: Gate> Gate for OneLock<'_, R, G> {
    fn at(&self, spot: Spot, who: u32) {
        match spot {
            Spot::Before => {
                self.lock();
                self.gate.at(spot, who);
            }
            Spot::Inside => self.gate.at(spot, who),
            Spot::After => {
                self.gate.at(spot, who);
                self.unlock();
            }
        }
    }
}

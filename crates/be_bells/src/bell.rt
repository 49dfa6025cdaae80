//! The bell of one worker.

use std::sync::Wait;
use std::sync::atomic::{AtomicU64, Ordering};
use std::time::Duration;

/// A bell, and what its worker came to by it.
#[derive(Drop)]
pub(crate) struct Bell {
    /// Its lowest bit is 1 while the worker sleeps or is about to. The others count the rings.
    word: AtomicU64,
    /// 1 once the worker has begun.
    begun: AtomicU64,
    /// 1 while the worker dozes until it may have a part.
    waits: AtomicU64,
    /// 1 from when it was woken until it made an entry or sleeps again. The worker alone writes
    /// this, and what follows.
    woken: AtomicU64,
    /// How much oftener it was woken for nothing than for an entry, within bounds.
    fruitless: AtomicU64,
}

/// So much oftener it may be woken for nothing before it rests once it is woken.
const FRUITLESS: u64 = 2;

/// More than that isn't counted: after some entries it rests no more.
const MOST: u64 = 5;

impl Bell {
    pub(crate) fn new() -> Bell {
        Bell {
            word: AtomicU64::new(0),
            begun: AtomicU64::new(0),
            waits: AtomicU64::new(0),
            woken: AtomicU64::new(0),
            fruitless: AtomicU64::new(0),
        }
    }

    /// The worker has begun. Whether it hadn't before.
    pub(crate) fn begin(&self) -> bool {
        self.begun.swap(1, Ordering::SeqCst) == 0
    }

    pub(crate) fn has_begun(&self) -> bool {
        self.begun.load(Ordering::SeqCst) == 1
    }

    pub(crate) fn shown(&self) -> u64 {
        self.word.load(Ordering::SeqCst)
    }

    /// What the bell shows once it was rung.
    pub(crate) fn ring(&self) -> u64 {
        self.word.fetch_add(2, Ordering::SeqCst).wrapping_add(2)
    }

    /// The worker sleeps no more, if the bell still shows this. Of several that ring at once the
    /// last one rouses it. Whether it was asleep and this did it.
    pub(crate) fn rouse(&self, shown: u64) -> bool {
        shown % 2 == 1
            && self
                .word
                .compare_exchange(shown, shown - 1, Ordering::SeqCst, Ordering::SeqCst)
                .is_ok()
    }

    /// Wakes its thread, after it was roused.
    pub(crate) fn wake_one(&self) {
        self.word.wake_one();
    }

    /// The worker has made an entry.
    pub(crate) fn made(&self) {
        if self.woken.load(Ordering::SeqCst) == 1 {
            self.woken.store(0, Ordering::SeqCst);
            let fruitless = self.fruitless.load(Ordering::SeqCst);
            self.fruitless
                .store(fruitless.saturating_sub(1), Ordering::SeqCst);
        }
    }

    /// The worker is about to sleep, if the bell still shows this. Whether it is.
    pub(crate) fn lie_down(&self, shown: u64) -> bool {
        if self.woken.load(Ordering::SeqCst) == 1 {
            self.woken.store(0, Ordering::SeqCst);
            let fruitless = self.fruitless.load(Ordering::SeqCst);
            self.fruitless
                .store(fruitless.saturating_add(1).min(MOST), Ordering::SeqCst);
        }
        self.word
            .compare_exchange(shown, shown | 1, Ordering::SeqCst, Ordering::SeqCst)
            .is_ok()
    }

    /// The worker, which lay down, sleeps until somebody rouses it.
    pub(crate) fn sleep<R: Wait>(&self, rt: &R) {
        for _ in rt.forever() {
            let shown = self.shown();
            if shown % 2 == 0 {
                self.woken.store(1, Ordering::SeqCst);
                return;
            }
            self.word.park(rt, low(shown));
        }
    }

    /// The worker dozes where it was woken for nothing again and again, the longer the oftener: a
    /// link that was full has room for a whole buffer after many commands, of which each rings.
    pub(crate) fn rest<R: Wait>(&self, rt: &R) {
        let fruitless = self.fruitless.load(Ordering::SeqCst);
        if fruitless >= FRUITLESS {
            self.doze(rt, 25 << fruitless.min(MOST));
        }
    }

    /// Dozes for so many microseconds, or less. No ring wakes it.
    pub(crate) fn doze<R: Wait>(&self, rt: &R, micros: u64) {
        self.word
            .park_timeout(rt, low(self.shown()), Duration::from_micros(micros));
    }

    /// Dozes for so many microseconds, or until it is rung.
    pub(crate) fn wait<R: Wait>(&self, rt: &R, micros: u64) {
        self.waits.store(1, Ordering::SeqCst);
        self.doze(rt, micros);
        self.waits.store(0, Ordering::SeqCst);
    }

    /// Whether it dozes until it is rung.
    pub(crate) fn waits(&self) -> bool {
        self.waits.load(Ordering::SeqCst) == 1
    }
}

// What a thread that sleeps compares of the word.
fn low(shown: u64) -> u32 {
    (shown % (1 << 32)) as u32
}

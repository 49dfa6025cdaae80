//! Bells: a worker that has nothing to do sleeps on its own, and who changes a part that it looked
//! at rings it.
//!
//! No clause of a run rests on who sleeps and who is woken, so nothing is said of either.
#![tactic(auto)]

mod bell;
mod sets;

use be_geom::NoMemory;
use bell::Bell;
use sets::Sets;
use std::alloc::Global;
use std::sync::Wait;
use std::sync::atomic::{AtomicU64, Ordering};

/// A bell for each activity, watchers for each place, and who is awake and who has begun.
///
/// A worker that hasn't begun counts as awake, and so does one that was woken and has yet to run.
#[derive(Drop)]
pub struct Bells {
    bells: Vec<Bell>,
    // Who is rung once the part at a place is changed. Whoever has that in hand alone writes this.
    watchers: Sets,
    // Who dozes until it may have the part at a place.
    waiting: Sets,
    awake: AtomicU64,
    unbegun: AtomicU64,
    activities: u32,
}

// How many microseconds a worker dozes that would leave nobody awake.
const ALONE: u64 = 50;

impl Bells {
    /// All workers are awake, and none has begun. There are at most 128 activities.
    pub fn new(alloc: Global, activities: u32, places: u32) -> Result<Bells, NoMemory> {
        let mut bells = Vec::with_capacity(alloc, activities as usize)?;
        for _ in 0..activities {
            bells.push(Bell::new())?;
        }
        Ok(Bells {
            bells,
            watchers: Sets::new(alloc, places)?,
            waiting: Sets::new(alloc, places)?,
            awake: AtomicU64::new(u64::from(activities)),
            unbegun: AtomicU64::new(u64::from(activities)),
            activities,
        })
    }

    /// The activity's worker has begun.
    pub fn begin(&self, who: u32) {
        if let Some(bell) = self.bells.get(who as usize) {
            if bell.begin() {
                self.unbegun.fetch_sub(1, Ordering::SeqCst);
            }
        }
    }

    /// Whether the activity's worker has begun. Who has no bell has.
    pub fn has_begun(&self, who: u32) -> bool {
        match self.bells.get(who as usize) {
            Some(bell) => bell.has_begun(),
            None => true,
        }
    }

    /// Whether the workers of all activities have begun.
    pub fn all_begun(&self) -> bool {
        self.unbegun.load(Ordering::SeqCst) == 0
    }

    /// What the activity's bell shows. It is asked for before the turn takes parts.
    pub fn shown(&self, who: u32) -> u64 {
        match self.bells.get(who as usize) {
            Some(bell) => bell.shown(),
            None => 0,
        }
    }

    /// The activity looks at this place, which its pass has in hand: whoever changes it rings. The
    /// closing one is rung when all others sleep, and by no change.
    pub fn watch(&self, who: u32, place: u32) {
        if who != self.closing() {
            self.watchers.add(place, who);
        }
    }

    /// The worker made an entry.
    pub fn made(&self, who: u32) {
        if let Some(bell) = self.bells.get(who as usize) {
            bell.made();
        }
    }

    /// Rings the bells of those that look at this place, which the caller has changed and has in
    /// hand.
    pub fn changed(&self, place: u32) {
        let watchers = self.watchers.take(place);
        if watchers.is_empty() {
            return;
        }
        for who in 0..self.activities {
            if watchers.has(who) {
                self.ring(who);
            }
        }
    }

    /// Wakes those that doze until they may have this place's part: the caller, which has it in
    /// hand, gives it back and sleeps.
    pub fn leaves(&self, place: u32) {
        let waiting = self.waiting.take(place);
        if waiting.is_empty() {
            return;
        }
        for who in 0..self.activities {
            if waiting.has(who) && self.waits(who) {
                self.ring(who);
            }
        }
    }

    fn waits(&self, who: u32) -> bool {
        match self.bells.get(who as usize) {
            Some(bell) => bell.waits(),
            None => false,
        }
    }

    /// Rings one bell, and wakes its worker where that sleeps.
    pub fn ring(&self, who: u32) {
        if let Some(bell) = self.bells.get(who as usize) {
            self.wake(bell, bell.ring());
        }
    }

    /// Rings all bells.
    pub fn ring_all(&self) {
        for who in 0..self.activities {
            self.ring(who);
        }
    }

    // Wakes a worker whose bell shows this, where it sleeps or dozes for a part.
    fn wake(&self, bell: &Bell, shown: u64) {
        if bell.rouse(shown) {
            self.awake.fetch_add(1, Ordering::SeqCst);
            bell.wake_one();
        } else if bell.waits() {
            bell.wake_one();
        }
    }

    /// Sleeps until the bell is rung, if it still shows this, and rests then where it was woken for
    /// nothing again and again. The last to fall asleep rings for the closing one. Who would leave
    /// nobody awake to go on only dozes: the closing one, and anyone before that has begun.
    pub fn sleep<R: Wait>(&self, rt: &R, who: u32, shown: u64) {
        let Some(bell) = self.bells.get(who as usize) else {
            return;
        };
        if !bell.lie_down(shown) {
            return;
        }
        if self.is_last_to_go() && !self.ring_closing(who) && bell.rouse(shown | 1) {
            self.awake.fetch_add(1, Ordering::SeqCst);
            bell.doze(rt, ALONE);
            return;
        }
        bell.sleep(rt);
        if who != self.closing() {
            bell.rest(rt);
        }
    }

    /// Dozes for so many microseconds, or less, and counts as awake meanwhile. No ring wakes it.
    pub fn doze<R: Wait>(&self, rt: &R, who: u32, micros: u64) {
        if let Some(bell) = self.bells.get(who as usize) {
            bell.doze(rt, micros);
        }
    }

    /// Dozes until it may have the part at this place, which another has in hand, and for so many
    /// microseconds at most.
    pub fn wait_for<R: Wait>(&self, rt: &R, who: u32, place: u32, micros: u64) {
        if let Some(bell) = self.bells.get(who as usize) {
            self.waiting.add(place, who);
            bell.wait(rt, micros);
        }
    }

    /// This worker has ended. It wakes those that doze for a part, as they may wait for one that it
    /// had. Where it leaves nobody awake it rings for the closing one, and for everyone before that
    /// has begun.
    pub fn leave(&self, who: u32) {
        for other in 0..self.activities {
            if self.waits(other) {
                self.ring(other);
            }
        }
        if self.is_last_to_go() && !self.ring_closing(who) {
            self.ring_all();
        }
    }

    // The last activity is the closing one.
    fn closing(&self) -> u32 {
        self.activities.saturating_sub(1)
    }

    // The caller is awake no more. Whether no other is, of those that have begun: of two that go at
    // once the later one is told so.
    fn is_last_to_go(&self) -> bool {
        let awake = self.awake.fetch_sub(1, Ordering::SeqCst);
        awake <= self.unbegun.load(Ordering::SeqCst).saturating_add(1)
    }

    // Rings for the closing worker, if that is another one and has begun.
    fn ring_closing(&self, who: u32) -> bool {
        let closing = self.closing();
        if who == closing || !self.has_begun(closing) {
            return false;
        }
        self.ring(closing);
        true
    }

    /// Whether nobody but the caller is awake, of those that have begun.
    pub fn is_quiet(&self) -> bool {
        let unbegun = self.unbegun.load(Ordering::SeqCst);
        self.awake.load(Ordering::SeqCst) <= unbegun.saturating_add(1)
    }
}

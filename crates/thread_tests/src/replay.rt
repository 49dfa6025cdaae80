//! A run of the small world by counters of the tests' own: one number for each activity.

use small_world::{Step, World};
use std::alloc::{AllocError, Global};

/// What each activity has: units to give, units to use up, and the closing one a single unit.
#[derive(Drop)]
pub(crate) struct Tally {
    producers: usize,
    units: Vec<u64>,
}

impl Tally {
    pub(crate) fn new(alloc: Global, world: World, each: u32) -> Result<Tally, AllocError> {
        let mut units = Vec::new(alloc);
        for _producer in 0..world.producers {
            units.push(u64::from(each))?;
        }
        for _consumer in 0..world.consumers {
            units.push(0)?;
        }
        units.push(1)?;
        Ok(Tally {
            producers: usize::from(world.producers),
            units,
        })
    }

    /// Makes the step. None where its actor may not make it now.
    pub(crate) fn make(&mut self, step: Step) -> Option<()> {
        match step {
            Step::Give(who) => self.give(who as usize),
            Step::Use(who) => self.use_up(who as usize),
            Step::Close => self.close(),
        }
    }

    /// Nobody has anything to do any more.
    pub(crate) fn is_over(&self) -> bool {
        self.units.iter().all(|units| *units == 0)
    }

    fn give(&mut self, who: usize) -> Option<()> {
        if who >= self.producers {
            return None;
        }
        let consumers = self.closing()?.checked_sub(self.producers)?;
        let target = who.checked_rem(consumers)?.checked_add(self.producers)?;
        self.spend(who)?;
        let got = self.units.get_mut(target)?;
        *got = got.checked_add(1)?;
        Some(())
    }

    fn use_up(&mut self, who: usize) -> Option<()> {
        if who < self.producers || who >= self.closing()? {
            return None;
        }
        self.spend(who)
    }

    // All others have to be without units.
    fn close(&mut self) -> Option<()> {
        let closing = self.closing()?;
        if self.units.iter().filter(|units| **units > 0).count() > 1 {
            return None;
        }
        self.spend(closing)
    }

    fn closing(&self) -> Option<usize> {
        self.units.len().checked_sub(1)
    }

    fn spend(&mut self, who: usize) -> Option<()> {
        let units = self.units.get_mut(who)?;
        *units = units.checked_sub(1)?;
        Some(())
    }
}

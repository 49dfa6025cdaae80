//! A run of the small world by counters of the test's own: one number for each activity.
ghost use Rattle.std.specs.Prelude.{◌<◌, length};

use small_world::Step;
use std::alloc::{AllocError, Global};

/// What each activity has: units to give, units to use up, and the closing one a single unit.
#[derive(Drop)]
pub(crate) struct Tally {
    producers: usize,
    units: Vec<u64>,
    seed: u64,
    drawn: u64,
}

impl Tally {
    pub(crate) fn new(
        alloc: Global,
        producers: u16,
        consumers: u16,
        each: u32,
        seed: u32,
    ) -> Result<Tally, AllocError> {
        let mut units = Vec::new(alloc);
        for _producer in 0..producers {
            units.push(u64::from(each))?;
        }
        for _consumer in 0..consumers {
            units.push(0)?;
        }
        units.push(1)?;
        Ok(Tally {
            producers: usize::from(producers),
            units,
            seed: u64::from(seed),
            drawn: u64::from(seed),
        })
    }

    pub(crate) fn units(&self) -> &[u64] {
        self.units.as_slice()
    }

    /// The activities that may step, in order of number.
    pub(crate) fn able(&self, alloc: Global) -> Result<Vec<usize>, AllocError> {
        let busy = self.units.iter().filter(|units| **units > 0).count();
        let mut able = Vec::new(alloc);
        for (who, units) in self.units.iter().enumerate() {
            let is_last = who == self.units.len().saturating_sub(1);
            if *units > 0 && (busy == 1 || !is_last) {
                able.push(who)?;
            }
        }
        Ok(able)
    }

    /// The one of these whose turn it is. The first one where the seed is 0.
    pub(crate) fn pick(&mut self, able: &[usize]) -> usize
        requires { 0 < length able.now }
    {
        if self.seed == 0 {
            return able[0];
        }
        self.drawn = self
            .drawn
            .wrapping_mul(6_364_136_223_846_793_005)
            .wrapping_add(1_442_695_040_888_963_407);
        able[(self.drawn >> 33) as usize % able.len()]
    }

    /// Makes the one step that the activity has.
    pub(crate) fn step(&mut self, who: usize) -> Option<Step> {
        let consumers = self
            .units
            .len()
            .checked_sub(self.producers)?
            .checked_sub(1)?;
        let units = self.units.get_mut(who)?;
        *units = units.checked_sub(1)?;
        let number = u32::try_from(who).ok()?;
        if who < self.producers {
            let target = who.checked_rem(consumers)?.checked_add(self.producers)?;
            let got = self.units.get_mut(target)?;
            *got = got.checked_add(1)?;
            return Some(Step::Give(number));
        }
        if who < self.units.len().saturating_sub(1) {
            return Some(Step::Use(number));
        }
        Some(Step::Close)
    }
}

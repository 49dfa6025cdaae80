//! Work for each step.
ghost use Rattle.std.specs.Prelude.{◌<◌, ◌^◌};

use be_geom::NoMemory;
use be_outside::{Gate, Spot};
use std::alloc::Global;
use std::sync::atomic::{AtomicU64, Ordering};

// The words of two activities aren't in one line of the processor's cache.
const APART: usize = 8;

/// Stirs a word of the activity at Inside, where the turn has its parts in hand.
#[derive(Drop)]
pub struct Stirs {
    work: u32,
    stirred: Vec<AtomicU64>,
}

impl Stirs {
    /// So many rounds of work for each step.
    pub fn new(alloc: Global, activities: u32, work: u32) -> Result<Stirs, NoMemory> {
        let many = activities as usize * APART;
        let mut stirred = Vec::with_capacity(alloc, many)?;
        for _place in 0..many {
            stirred.push(AtomicU64::new(1))?;
        }
        Ok(Stirs { work, stirred })
    }

    fn stir(&self, who: u32) {
        let Some(word) = self.stirred.get(who as usize * APART) else {
            return;
        };
        let mut stirred = word.load(Ordering::SeqCst);
        for round in 0..self.work {
            stirred = (stirred ^ u64::from(round))
                .wrapping_mul(6_364_136_223_846_793_005)
                .rotate_left(17);
        }
        word.store(stirred, Ordering::SeqCst);
    }
}

impl Gate for Stirs {
    fn at(&self, spot: Spot, who: u32) {
        match spot {
            Spot::Inside => self.stir(who),
            Spot::Before | Spot::After => {}
        }
    }
}

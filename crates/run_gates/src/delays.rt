ghost use Rattle.std.specs.Prelude.{◌≡◌, IfOk};
ghost use Rattle.run_gates.specs.Counted.{activities_of};
ghost use Rattle.run_gates.specs.Visited.{delayed_visits};

use crate::visits::Visits;
use be_geom::NoMemory;
use be_outside::{Gate, Spot};
use std::alloc::Global;
use std::sync::atomic::{AtomicU64, Ordering};
use std::thread;

/// How often the flag is loaded before the activity goes on.
const LOADS: u32 = 1_000_000;

/// After so many loads another thread gets the processor.
const TURNS: u32 = 1024;

/// Lets one visit of one activity to Before go on only after so many loads of a flag. Others can
/// step meanwhile.
#[derive(Drop)]
pub struct DelaysBefore {
    visits: Visits,
    who: u32,
    visit: u64,
    /// Nobody sets it.
    flag: AtomicU64,
}

impl DelaysBefore {
    /// The visits of the activity are counted from 1.
    pub fn new(
        alloc: Global,
        activities: u32,
        who: u32,
        visit: u64,
    ) -> Result<DelaysBefore, NoMemory>
        ensures { IfOk result (λ gate. activities_of (delayed_visits gate) ≡ activities) }
    {
        Ok(DelaysBefore {
            visits: Visits::new(alloc, activities)?,
            who,
            visit,
            flag: AtomicU64::new(0),
        })
    }

    /// Who was where.
    pub fn visits(&self) -> &Visits
        ensures { result.now ≡ delayed_visits self.now }
    {
        &self.visits
    }

    fn delay(&self) {
        for turn in 0..LOADS {
            if self.flag.load(Ordering::SeqCst) != 0 {
                return;
            }
            if turn % TURNS == 0 {
                thread::yield_now();
            }
        }
    }
}

impl Gate for DelaysBefore {
    fn at(&self, spot: Spot, who: u32) {
        let visit = self.visits.add(spot, who);
        match spot {
            Spot::Before => {
                if who == self.who && visit == self.visit {
                    self.delay();
                }
            }
            Spot::Inside | Spot::After => {}
        }
    }
}

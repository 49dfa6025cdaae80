//! Counters, which the parts are.
ghost use Rattle.std.specs.Prelude.{◌≡◌, ◌+◌, ◌^◌, ◌<◌, ◌++◌, [], ◌∷◌, OnOk, IfSome, IfNone};
ghost use Rattle.small_world.specs.Counting.{acted, got};
ghost use Rattle.small_world.specs.Counters.{count_of, log_of, spare_of};

use crate::step::{Count, Step};
use be_geom::NoMemory;
use std::alloc::Global;
use std::collections::VecDeque;

/// An activity's counter, with the steps that it made, each with its number.
#[derive(Drop)]
pub struct Counter {
    count: Count,
    log: VecDeque<(u64, Step)>,
    // What two counters that lie side by side have between them, as a thread's writes to the one
    // cost those of the other where both are in one line of a cache.
    apart: [u64; 8],
}

impl Counter {
    /// A counter whose activity has made no step. It takes no memory.
    pub fn new(alloc: Global, count: Count) -> Counter
        ensures count { count_of result ≡ count }
        ensures log { log_of result ≡ [] }
    {
        Counter {
            count,
            log: VecDeque::new(alloc),
            apart: [0; 8],
        }
    }

    /// Its units, and how many steps are left.
    pub fn count(&self) -> Count
        ensures { result ≡ count_of self.now }
    {
        self.count
    }

    /// Makes the activity's step, which gets this number.
    pub(crate) fn act(&mut self, step: Step, number: u64)
        requires { 0 < spare_of self.old }
        ensures count { count_of self.new ≡ acted step (count_of self.old) }
        ensures log { log_of self.new ≡ log_of self.old ++ (number, step) ∷ [] }
    {
        self.count = acted(step, self.count);
        self.log.push_back_reserved((number, step));
    }

    /// Takes a unit to use up.
    pub(crate) fn receive(&mut self)
        requires { (count_of self.old).units + 1 < 2 ^ 64 }
        ensures count { count_of self.new ≡ got (count_of self.old) }
        ensures log { log_of self.new ≡ log_of self.old }
    {
        let Count { left, units } = self.count;
        self.count = Count {
            left,
            units: units + 1,
        };
    }

    /// Makes room for one step more in the log.
    pub(crate) fn reserve(&mut self) -> Result<(), NoMemory>
        ensures count { count_of self.new ≡ count_of self.old }
        ensures log { log_of self.new ≡ log_of self.old }
        ensures room { OnOk result (0 < spare_of self.new) }
    {
        match self.log.reserve(1) {
            Ok(()) => Ok(()),
            Err(_) => Err(NoMemory),
        }
    }

    /// Takes the oldest step out of the log.
    pub(crate) fn unlog(&mut self) -> Option<(u64, Step)>
        ensures count { count_of self.new ≡ count_of self.old }
        ensures oldest { IfSome result (λ y. log_of self.old ≡ y ∷ log_of self.new) }
        ensures none { IfNone result ((log_of self.old ≡ []) × (log_of self.new ≡ [])) }
    {
        self.log.pop_front()
    }
}

// What the step leaves of its actor's units.
fn acted(step: Step, count: Count) -> Count
    ensures { result ≡ acted step count }
{
    let Count { left, units } = count;
    match step {
        Step::Give(_) => Count {
            left: left.saturating_sub(1),
            units,
        },
        Step::Use(_) => Count {
            left,
            units: units.saturating_sub(1),
        },
        Step::Close => Count { left, units: 0 },
    }
}

//! The counters at the start.
ghost use Rattle.std.specs.Prelude.{◌≡◌, ◌^◌, ◌<◌, ◌≤◌, [], false, All, IfOk, map, vec_len};
ghost use Rattle.be_hall.specs.Numbers.{total};
ghost use Rattle.be_hall.specs.Machine.{AllFit};
ghost use Rattle.small_world.specs.Counting.{IsSound, is_closed, passing};
ghost use Rattle.small_world.specs.Counters.{count_of, log_of};
ghost use Rattle.small_world.specs.Opening.{opening_count, opening_counts};

use crate::counter::Counter;
use crate::step::Count;
use crate::world::World;
use be_geom::NoMemory;
use std::alloc::Global;

impl World {
    /// All counters at the start, where each producer has so many units to give, and the first
    /// consumer so many stored. They make two steps for each unit that is given, one for each that
    /// is stored, and the closing one.
    pub fn opening(&self, alloc: Global, each: u32, stored: u32) -> Result<Vec<Counter>, NoMemory>
        ensures counts { IfOk result
            (λ v. map count_of v.items ≡ opening_counts self.now each stored) }
        ensures few { IfOk result (λ v. vec_len v < 2 ^ 32) }

        // A run may begin with them.
        ensures sound { IfOk result (λ v. IsSound self.now (map count_of v.items)) }
        ensures unclosed { IfOk result (λ v. is_closed self.now (map count_of v.items) ≡ false) }
        ensures budgets { IfOk result
            (λ v. total (passing self.now).budget (map count_of v.items) ≤ 2 ^ 62) }
        ensures fits { IfOk result
            (λ v. AllFit (passing self.now).fits 0 (map count_of v.items)) }
        ensures logs { IfOk result (λ v. All (λ x. log_of x ≡ []) v.items) }
    {
        let places = self.closing() + 1;
        let mut parts = Vec::with_capacity(alloc, places as usize)?;
        for activity in 0..places {
            parts.push_reserved(Counter::new(alloc, self.opening_count(activity, each, stored)));
        }
        Ok(parts)
    }

    fn opening_count(&self, activity: u32, each: u32, stored: u32) -> Count
        ensures { result ≡ opening_count self.now each stored activity }
    {
        let left = if activity < u32::from(self.producers) {
            u64::from(each)
        } else {
            0
        };
        let units = if activity >= self.closing() {
            1
        } else if activity == u32::from(self.producers) {
            u64::from(stored)
        } else {
            0
        };
        Count { left, units }
    }
}

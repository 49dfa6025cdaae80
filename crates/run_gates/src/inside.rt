ghost use Rattle.std.specs.Prelude.{◌≡◌, IfOk};
ghost use Rattle.run_gates.specs.Counted.{activities_of};
ghost use Rattle.run_gates.specs.Visited.{held_pair, inside_visits};

use crate::meeting::Meeting;
use crate::visits::Visits;
use be_geom::NoMemory;
use be_outside::{Gate, Spot};
use std::alloc::Global;

/// At which of its visits to Inside an activity is held.
const VISIT: u64 = 3;

/// Holds each of two activities at its third Inside until the other one is at its third Inside.
/// Both stand there with their parts in hand, so neither may want one of the other's.
#[derive(Drop)]
pub struct HoldsInside {
    visits: Visits,
    pair: (u32, u32),
    meeting: Meeting,
}

impl HoldsInside {
    /// A gate for so many activities, which holds these two.
    pub fn new(alloc: Global, activities: u32, pair: (u32, u32)) -> Result<HoldsInside, NoMemory>
        ensures counts { IfOk result (λ gate. activities_of (inside_visits gate) ≡ activities) }
        ensures holds { IfOk result (λ gate. held_pair gate ≡ pair) }
    {
        Ok(HoldsInside {
            visits: Visits::new(alloc, activities)?,
            pair,
            meeting: Meeting::new(),
        })
    }

    /// Who was where.
    pub fn visits(&self) -> &Visits
        ensures { result.now ≡ inside_visits self.now }
    {
        &self.visits
    }

    /// Both came to their third Inside, and each saw the other one there.
    pub fn has_met(&self) -> bool {
        self.meeting.has_met()
    }
}

impl Gate for HoldsInside {
    fn at(&self, spot: Spot, who: u32) {
        let visit = self.visits.add(spot, who);
        let is_held = who == self.pair.0 || who == self.pair.1;
        match spot {
            Spot::Inside => {
                if is_held && visit == VISIT {
                    self.meeting.arrive();
                    self.meeting.wait_for_two();
                }
            }
            Spot::Before | Spot::After => {}
        }
    }
}

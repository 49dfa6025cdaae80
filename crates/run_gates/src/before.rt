ghost use Rattle.std.specs.Prelude.{◌≡◌, IfOk};
ghost use Rattle.run_gates.specs.Counted.{activities_of};
ghost use Rattle.run_gates.specs.Visited.{before_visits};

use crate::meeting::Meeting;
use crate::visits::Visits;
use be_geom::NoMemory;
use be_outside::{Gate, Spot};
use std::alloc::Global;

/// Holds the first one that comes to Before until a second one is there too. Where an activity
/// comes there again, that counts as one more.
#[derive(Drop)]
pub struct HoldsBefore {
    visits: Visits,
    meeting: Meeting,
}

impl HoldsBefore {
    /// A gate for so many activities, at which nobody was.
    pub fn new(alloc: Global, activities: u32) -> Result<HoldsBefore, NoMemory>
        ensures { IfOk result (λ gate. activities_of (before_visits gate) ≡ activities) }
    {
        Ok(HoldsBefore {
            visits: Visits::new(alloc, activities)?,
            meeting: Meeting::new(),
        })
    }

    /// Who was where.
    pub fn visits(&self) -> &Visits
        ensures { result.now ≡ before_visits self.now }
    {
        &self.visits
    }

    /// Two came to Before, and the first one saw the second one.
    pub fn has_met(&self) -> bool {
        self.meeting.has_met()
    }
}

impl Gate for HoldsBefore {
    fn at(&self, spot: Spot, who: u32) {
        self.visits.add(spot, who);
        match spot {
            Spot::Before => {
                if self.meeting.arrive() == 1 {
                    self.meeting.wait_for_two();
                }
            }
            Spot::Inside | Spot::After => {}
        }
    }
}

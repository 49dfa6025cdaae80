//! The activities of the counters.
ghost use Rattle.std.specs.Prelude.{◌≡◌, ◌+◌, true, slice_set};
ghost use Rattle.small_world.specs.Counting.{closing_place, is_wanted, legal_step, is_close};
ghost use Rattle.small_world.specs.Counting.{is_closed};

use crate::counter::Counter;
use crate::judging::Prospect;
use crate::step::Step;
use crate::world::World;
use be_geom::NoMemory;
use be_hall::Held;
use be_serial::Closing;
use be_turns::{Turn, Turns};

impl Turns for World {
    ghost use Rattle.small_world.specs.Laws.{passing_turns};

    ghost activities = { λ it. closing_place it + 1 };

    ghost owns = { λ it activity place. is_wanted it activity place };

    ghost legal = { λ it all activity. legal_step it all activity };

    ghost stops = { λ step. is_close step };

    ghost turning = { λ it. passing_turns it };

    fn activities(&self) -> u32 {
        self.closing() + 1
    }

    fn is_own(&self, activity: u32, place: u32) -> bool {
        let closing = self.closing();
        place == activity || activity == closing
    }

    /// A producer without units ends. Nobody else ever does: a consumer can't tell that no unit
    /// will come.
    fn next(&self, activity: u32, held: &Held<Counter>) -> Result<Turn<Step>, NoMemory> {
        let wish = self.wish_of(activity);
        match self.judge(held, wish) {
            Prospect::May => Ok(Turn::Entry(wish)),
            Prospect::Needs(place) => Ok(Turn::Needs(place)),
            Prospect::MayNot => {
                if activity < u32::from(self.producers) {
                    return Ok(Turn::Ended);
                }
                Ok(Turn::NotYet)
            }
        }
    }

    fn has_entry(&self, activity: u32, held: &Held<Counter>) -> bool {
        if activity < self.closing() {
            return self.has_work(held, activity).unwrap();
        }
        match self.judge(held, Step::Close) {
            Prospect::May => true,
            Prospect::MayNot => false,
            Prospect::Needs(_) => unreachable!(),
        }
    }
}

impl Closing for World {
    ghost use Rattle.small_world.specs.Laws.{passing_closes};

    ghost closed = { λ it all. is_closed it all };

    /// The closing activity is stirred by each step, since it looks at all counters.
    fn stir(&self, entry: &Step, stale: &mut [bool]) {
        let step = *entry;
        mark(stale, self.closing());
        mark(stale, self.actor_of(step));
        mark(stale, self.taker_of(step));
    }

    ghost never_stuck = { λ it. passing_closes it };
}

// Marks the activity, if it is there.
fn mark(stale: &mut [bool], activity: u32)
    ensures { stale.new ≡ slice_set stale.old activity true }
{
    let place = activity as usize;
    if place < stale.len() {
        stale[place] = true;
    }
}

//! The activities of a script's run.
use crate::owning::{activities, is_own};
use crate::stirring::mark_stirred;
use crate::turning::{has_turn, next_turn};
use crate::world::World;
use be_geom::NoMemory;
use be_hall::Held;
use be_machine::Entry;
use be_parts::Part;
use be_serial::Closing;
use be_turns::{Turn, Turns};

impl Turns for World {
    ghost use Rattle.be_machine.specs.Activities.{activities};
    ghost use Rattle.be_world.specs.Turns.{is_last, is_own, legal_entry};
    ghost use Rattle.be_world.specs.TurnLaws.{world_turning};

    ghost activities = { λ it. activities it };

    ghost owns = { λ it activity place. is_own it activity place };

    ghost legal = { λ it all activity. legal_entry it all activity };

    ghost stops = { λ entry. is_last entry.act };

    ghost turning = { λ it. world_turning it };

    fn activities(&self) -> u32 {
        activities(&self.script)
    }

    fn is_own(&self, activity: u32, place: u32) -> bool {
        is_own(&self.script, activity, place)
    }

    /// A note's word is copied.
    fn next(&self, activity: u32, held: &Held<Part>) -> Result<Turn<Entry>, NoMemory> {
        next_turn(self.alloc, &self.script, held, activity)
    }

    fn has_entry(&self, activity: u32, held: &Held<Part>) -> bool {
        has_turn(&self.script, held, activity)
    }
}

impl Closing for World {
    ghost use Rattle.be_world.specs.TurnLaws.{world_closing};
    ghost use Rattle.be_world.specs.Turns.{has_stopped};

    ghost closed = { λ it all. has_stopped it all };

    ghost never_stuck = { λ it. world_closing it };

    /// It takes a step for each application, for a command one for each window, and for an entry of
    /// the input one for each activity.
    fn stir(&self, entry: &Entry, stale: &mut [bool]) {
        mark_stirred(&self.script, entry, stale);
    }
}

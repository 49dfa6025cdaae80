//! The activities of a script's run whose parts keep what is noted: those of the run without notes.
use crate::noting::Noting;
use be_geom::NoMemory;
use be_hall::Held;
use be_machine::Entry;
use be_parts::Part;
use be_serial::Closing;
use be_turns::{Turn, Turns};

impl Turns for Noting {
    ghost use Rattle.be_machine.specs.Activities.{activities};
    ghost use Rattle.be_noted.specs.NotingLaws.{noting_is_turning};
    ghost use Rattle.be_noted.specs.Noting.{noted_legal};
    ghost use Rattle.be_world.specs.Turns.{is_last, is_own};

    ghost activities = { λ it. activities it };

    ghost owns = { λ it activity place. is_own it activity place };

    ghost legal = { λ it all activity. noted_legal it all activity };

    ghost stops = { λ entry. is_last entry.act };

    ghost turning = { λ it. noting_is_turning it };

    fn activities(&self) -> u32 {
        self.world.activities()
    }

    fn is_own(&self, activity: u32, place: u32) -> bool {
        self.world.is_own(activity, place)
    }

    fn next(&self, activity: u32, held: &Held<Part>) -> Result<Turn<Entry>, NoMemory> {
        self.world.next(activity, held)
    }

    fn has_entry(&self, activity: u32, held: &Held<Part>) -> bool {
        self.world.has_entry(activity, held)
    }
}

impl Closing for Noting {
    ghost use Rattle.be_noted.specs.NotingLaws.{noting_is_closing};
    ghost use Rattle.be_noted.specs.Noting.{noted_stopped};

    ghost closed = { λ it all. noted_stopped it all };

    ghost never_stuck = { λ it. noting_is_closing it };

    fn stir(&self, entry: &Entry, stale: &mut [bool]) {
        self.world.stir(entry, stale);
    }
}

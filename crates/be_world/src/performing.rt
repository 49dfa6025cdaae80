//! An entry is made.
ghost use Rattle.std.specs.Prelude.{◌≡◌};
ghost use Rattle.be_parts.specs.Kept.{note_in};
ghost use Rattle.be_script.specs.Script.{declared_by};
ghost use Rattle.be_world.specs.Performing.{HasPerformed, MayMake, MayPerform};
ghost use Rattle.be_world.specs.Preparing.{entry_in};

use crate::logs::enter_at;
use crate::meeting::carry_out;
use crate::owning::keeper;
use crate::preparing::ReadyEntry;
use crate::work::Work;
use crate::world::World;
use be_asking::activity_of;
use be_bitmap::Bitmap;
use be_hall::Held;
use be_machine::Entry;
use be_parts::Part;
use be_script::Script;
use std::alloc::Global;

impl World {
    /// Makes an entry that is ready, under this number, and its activity's log keeps this note of
    /// it. It takes no memory.
    pub fn make(&self, held: &mut Held<Part>, ready: ReadyEntry, number: u64, note: Option<Vec<u8>>)
        requires { MayMake self.now held.old.parts ready number }
        ensures { HasPerformed self.now (entry_in ready) (note_in note) number held.old held.new }
    {
        let ReadyEntry {
            entry,
            made,
            seen: _,
        } = ready;
        perform_entry(
            self.alloc,
            &self.script,
            &self.bitmaps,
            held,
            entry,
            made,
            number,
            note,
        );
    }
}

/// The entry is carried out with what was made for it, and its activity's log keeps it under this
/// number, with this note. The bitmaps are the script's. It takes no memory.
pub(crate) fn perform_entry(
    alloc: Global,
    script: &Script,
    bitmaps: &[Bitmap],
    held: &mut Held<Part>,
    entry: Entry,
    made: Work,
    number: u64,
    note: Option<Vec<u8>>,
)
    requires may { MayPerform (declared_by script.now) held.old.parts entry made number }
    requires bitmaps { bitmaps.now ≡ (declared_by script.now).pictures }
    ensures { HasPerformed (declared_by script.now) entry (note_in note) number held.old held.new }
{
    held.ascends();
    let Some(who) = activity_of(script, entry.actor) else {
        unreachable!()
    };
    let place = keeper(script, who);
    carry_out(alloc, script, bitmaps, held, entry.actor, who, made);
    enter_at(held, place, number, entry, note);
}

//! An entry is made ready.
ghost use Rattle.std.specs.Prelude.{◌≡◌, None, Some, false, true, IfOk};
ghost use Rattle.be_asking.specs.Wants.{activity_in};
ghost use Rattle.be_hall.specs.Hands.{meant, part_at};
ghost use Rattle.be_hall.specs.Machine.{IsAskable, SomeFits};
ghost use Rattle.be_machine.specs.Activities.{activity_of};
ghost use Rattle.be_parts.specs.Parts.{log_of, meaning_of, notes_of};
ghost use Rattle.be_ready.specs.Chains.{chains_of};
ghost use Rattle.be_rules.specs.Rules.{kept_at, world_machine};
ghost use Rattle.be_script.specs.Limits.{IsWithinLimits};
ghost use Rattle.be_script.specs.Script.{declared_by};
ghost use Rattle.be_world.specs.Entering.{KeepsEntries};
ghost use Rattle.be_world.specs.Preparing.{IsVerdict, work_in};

use crate::judging::judge;
use crate::logs::make_room_at;
use crate::owning::keeper;
use crate::work::Work;
use crate::world::World;
use be_asking::{Activity, activity_of};
use be_geom::NoMemory;
use be_hall::{Held, Verdict};
use be_handler::Chain;
use be_machine::Entry;
use be_parts::Part;
use be_script::Script;
use std::alloc::Global;
use std::snapshot::Snapshot;

/// An entry that may be made, what was made for it, and the parts in hand from which that was seen.
#[derive(Drop)]
pub struct ReadyEntry {
    pub(crate) entry: Entry,
    pub(crate) made: Work,
    pub(crate) seen: Snapshot<Held<Part>>,
}

impl World {
    /// What becomes of the entry with these parts. The log that keeps the entry gets room, whatever
    /// the answer. A note's word is copied, a message that is posted is made and flattened, and a
    /// change of windows is planned.
    pub fn ready(
        &self,
        held: &mut Held<Part>,
        entry: &Entry,
    ) -> Result<Verdict<ReadyEntry>, NoMemory>
        requires { IsAskable (world_machine self.now) (meant meaning_of held.old.parts) }
        ensures room { held.new.room ≡ held.old.room }
        ensures same { meant meaning_of held.new.parts ≡ meant meaning_of held.old.parts }
        ensures logs { meant log_of held.new.parts ≡ meant log_of held.old.parts }
        ensures notes { meant notes_of held.new.parts ≡ meant notes_of held.old.parts }
        ensures answer { IfOk result (IsVerdict self.now held.new.parts entry.now) }
    {
        prepare_entry(self.alloc, &self.script, &self.chains, held, entry)
    }
}

impl ReadyEntry {
    /// What was made for it.
    pub fn work(&self) -> &Work
        ensures { result.now ≡ work_in self.now }
    {
        &self.made
    }
}

/// What becomes of the entry with these parts. The chains are those of the script's windows. The
/// log that keeps the entry gets room, whatever the answer.
pub(crate) fn prepare_entry(
    alloc: Global,
    script: &Script,
    chains: &[Chain],
    held: &mut Held<Part>,
    entry: &Entry,
) -> Result<Verdict<ReadyEntry>, NoMemory>
    requires limits { IsWithinLimits (declared_by script.now) }
    requires chains { chains.now ≡ chains_of (declared_by script.now) }
    requires askable { IsAskable (world_machine (declared_by script.now))
        (meant meaning_of held.old.parts) }
    ensures room { held.new.room ≡ held.old.room }
    ensures same { meant meaning_of held.new.parts ≡ meant meaning_of held.old.parts }
    ensures logs { meant log_of held.new.parts ≡ meant log_of held.old.parts }
    ensures notes { meant notes_of held.new.parts ≡ meant notes_of held.old.parts }
    ensures answer { IfOk result (IsVerdict (declared_by script.now) held.new.parts entry.now) }
{
    let Some(who) = activity_of(script, entry.actor) else {
        return Ok(Verdict::NotLegal);
    };
    let place = keeper(script, who);
    if !is_there(script, held, entry.actor, who, place) {
        return Ok(Verdict::Needs(place));
    }
    make_room_at(held, place)?;
    match judge(alloc, script, chains, held, who, entry)? {
        Verdict::NotLegal => Ok(Verdict::NotLegal),
        Verdict::Needs(part) => Ok(Verdict::Needs(part)),
        Verdict::Ready((entry, made)) => {
            let seen = Snapshot::of(held);
            Ok(Verdict::Ready(ReadyEntry { entry, made, seen }))
        }
    }
}

// Whether the part that keeps the activity's entries is in hand.
fn is_there(script: &Script, held: &Held<Part>, number: u32, who: Activity, place: u32) -> bool
    requires is { activity_of (declared_by script.now) number ≡ Some (activity_in who) }
    requires fitting { SomeFits (world_machine (declared_by script.now))
        (meant meaning_of held.now.parts) }
    requires place { place ≡ kept_at (declared_by script.now) (Some (activity_in who)) }
    ensures there { result ≡ true → KeepsEntries held.now.parts place }
    ensures missing { result ≡ false → part_at held.now.parts place ≡ None }
{
    let _script = script;
    let _number = number;
    let _who = who;
    let Some(part) = held.get(place) else {
        return false;
    };
    part.means_its_kind();
    true
}

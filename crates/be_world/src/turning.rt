//! What activities do next.
ghost use Rattle.std.specs.Prelude.{◌≡◌, ◌^◌, IfOk};
ghost use Rattle.be_hall.specs.Hands.{meant, places_of, up_from};
ghost use Rattle.be_hall.specs.Machine.{HeldFit, SomeFits};
ghost use Rattle.be_parts.specs.Parts.{meaning_of};
ghost use Rattle.be_rules.specs.Rules.{SliceFits, world_machine};
ghost use Rattle.be_script.specs.Limits.{IsWithinLimits};
ghost use Rattle.be_script.specs.Script.{declared_by};
ghost use Rattle.be_turns.specs.Turning.{Tells};
ghost use Rattle.be_world.specs.Turns.{HasEntry, legal_entry};

use crate::entries::entry_of;
use be_asking::{Answer, Wanted, activity_of, has_any, may, wanted};
use be_geom::NoMemory;
use be_hall::Held;
use be_machine::Entry;
use be_parts::Part;
use be_script::Script;
use be_turns::Turn;
use std::alloc::Global;

/// What the activity of this number does next, as far as the parts in hand tell. An activity that
/// isn't there makes no entry. A note's word is copied.
pub(crate) fn next_turn(
    alloc: Global,
    script: &Script,
    held: &Held<Part>,
    number: u32,
) -> Result<Turn<Entry>, NoMemory>
    requires limits { IsWithinLimits (declared_by script.now) }
    requires fitting { SomeFits (world_machine (declared_by script.now))
        (meant meaning_of held.now.parts) }
    requires fits { HeldFit SliceFits (2 ^ 62) (meant meaning_of held.now.parts) }
    ensures { IfOk result (Tells (world_machine (declared_by script.now))
        (legal_entry (declared_by script.now)) number (meant meaning_of held.now.parts)) }
{
    let Some(who) = activity_of(script, number) else {
        return Ok(Turn::Ended);
    };
    match wanted(script, held, number, who) {
        Wanted::Nothing => Ok(Turn::Ended),
        Wanted::Needs(place) => Ok(Turn::Needs(place)),
        Wanted::Wants(want) => match may(alloc, script, held, number, who, want)? {
            Answer::May(deed) => Ok(Turn::Entry(entry_of(alloc, number, deed)?)),
            Answer::NotYet => Ok(Turn::NotYet),
            Answer::Needs(place) => Ok(Turn::Needs(place)),
        },
    }
}

/// Whether the activity of this number has a legal entry, where all parts are in hand. It takes no
/// memory.
pub(crate) fn has_turn(script: &Script, held: &Held<Part>, number: u32) -> bool
    requires limits { IsWithinLimits (declared_by script.now) }
    requires all { places_of held.now.parts
        ≡ up_from 0 (world_machine (declared_by script.now)).places }
    requires fitting { SomeFits (world_machine (declared_by script.now))
        (meant meaning_of held.now.parts) }
    requires fits { HeldFit SliceFits (2 ^ 62) (meant meaning_of held.now.parts) }
    ensures { HasEntry (declared_by script.now) (meant meaning_of held.now.parts) number result }
{
    let Some(who) = activity_of(script, number) else {
        return false;
    };
    match wanted(script, held, number, who) {
        Wanted::Nothing => false,
        Wanted::Needs(_) => unreachable!(),
        Wanted::Wants(want) => has_any(script, held, number, who, want),
    }
}

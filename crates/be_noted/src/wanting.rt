//! What is noted of an entry, known before it.
ghost use Rattle.std.specs.Prelude.{IfOk};
ghost use Rattle.be_asking.specs.declared.activity.Activity.TheVariants as who;
ghost use Rattle.be_asking.specs.declared.activity.Runner.TheVariants as by;
ghost use Rattle.be_asking.specs.declared.want.Want.TheVariants as want;
ghost use Rattle.be_noted.specs.Noted.{IsNoted};
ghost use Rattle.be_parts.specs.Kept.{note_in};
ghost use Rattle.be_script.specs.Script.{declared_by};
ghost use Rattle.be_steps.specs.Steps.{IsAllowed};
ghost use Rattle.be_world.specs.Suits.{IsPrepared, IsSuited, MayStep};

use crate::asking::note_request;
use crate::listing::note_listing;
use crate::taking::note_take;
use be_asking::{Activity, Want, Wanted, wanted};
use be_geom::NoMemory;
use be_hall::Held;
use be_parts::Part;
use be_script::Script;
use be_world::Work;
use std::alloc::Global;

/// What the activity of this number notes of the entry that it may make, for which this was made.
/// Runners alone note anything.
pub(crate) fn note_entry(
    alloc: Global,
    script: &Script,
    held: &Held<Part>,
    number: u32,
    who: Activity,
    made: &Work,
) -> Result<Option<Vec<u8>>, NoMemory>
    requires may { MayStep (declared_by script.now) held.now.parts number who }
    requires prepared { IsPrepared (declared_by script.now) held.now.parts number made.now }
    ensures { IfOk result (λ note. IsNoted (declared_by script.now) held.now.parts who
        (note_in note)) }
{
    match wanted(script, held, number, who) {
        Wanted::Wants(want) => note_want(alloc, script, held, who, want, made),
        Wanted::Needs(_) => unreachable!(),
        Wanted::Nothing => unreachable!(),
    }
}

fn note_want(
    alloc: Global,
    script: &Script,
    held: &Held<Part>,
    who: Activity,
    want: Want,
    made: &Work,
) -> Result<Option<Vec<u8>>, NoMemory>
    requires allowed { IsAllowed (declared_by script.now) held.now.parts who want }
    requires suits { IsSuited (declared_by script.now) held.now.parts who want made.now }
    ensures { IfOk result (λ note. IsNoted (declared_by script.now) held.now.parts who
        (note_in note)) }
{
    let _who = who;
    match want {
        Want::Asks(runner, request) => note_request(alloc, script, held, runner, request, made),
        Want::Takes(w) => note_made_take(alloc, script, held, w, made),
        Want::Begins(w) => note_listing(alloc, script, held, w),
        _ => Ok(None),
    }
}

fn note_made_take(
    alloc: Global,
    script: &Script,
    held: &Held<Part>,
    w: u16,
    made: &Work,
) -> Result<Option<Vec<u8>>, NoMemory>
    requires allowed { IsAllowed (declared_by script.now) held.now.parts
        (who.Runner (by.Looper w)) (want.Takes w) }
    requires suits { IsSuited (declared_by script.now) held.now.parts
        (who.Runner (by.Looper w)) (want.Takes w) made.now }
    ensures { IfOk result (λ note. IsNoted (declared_by script.now) held.now.parts
        (who.Runner (by.Looper w)) (note_in note)) }
{
    match made {
        Work::Taken(message, route) => {
            Ok(Some(note_take(alloc, script, held, w, message, *route)?))
        }
        _ => unreachable!(),
    }
}

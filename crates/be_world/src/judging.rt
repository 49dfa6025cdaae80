//! Whether an activity may make an entry.
ghost use Rattle.std.specs.Prelude.{◌≡◌, ◌^◌, Some, IfOk};
ghost use Rattle.be_asking.specs.Deeds.{IsAsked};
ghost use Rattle.be_asking.specs.Wants.{activity_in};
ghost use Rattle.be_hall.specs.Hands.{meant};
ghost use Rattle.be_hall.specs.Machine.{HeldFit, SomeFits};
ghost use Rattle.be_machine.specs.Activities.{activity_of};
ghost use Rattle.be_parts.specs.Parts.{meaning_of};
ghost use Rattle.be_ready.specs.Chains.{chains_of};
ghost use Rattle.be_rules.specs.Rules.{SliceFits, world_machine};
ghost use Rattle.be_script.specs.Limits.{IsWithinLimits};
ghost use Rattle.be_script.specs.Script.{declared_by};
ghost use Rattle.be_world.specs.Judging.{IsJudged};

use crate::acts::is_same;
use crate::entries::entry_of;
use crate::making::make;
use crate::work::Work;
use be_asking::{Activity, Answer, Want, Wanted, may, wanted};
use be_geom::NoMemory;
use be_hall::{Held, Verdict};
use be_handler::Chain;
use be_machine::Entry;
use be_parts::Part;
use be_script::Script;
use std::alloc::Global;

/// Whether its activity may make the entry with the parts in hand. If so, what it needs is made,
/// and the entry is copied. The chains are those of the script's windows.
pub(crate) fn judge(
    alloc: Global,
    script: &Script,
    chains: &[Chain],
    held: &Held<Part>,
    who: Activity,
    entry: &Entry,
) -> Result<Verdict<(Entry, Work)>, NoMemory>
    requires limits { IsWithinLimits (declared_by script.now) }
    requires chains { chains.now ≡ chains_of (declared_by script.now) }
    requires is { activity_of (declared_by script.now) entry.now.actor ≡ Some (activity_in who) }
    requires fitting { SomeFits (world_machine (declared_by script.now))
        (meant meaning_of held.now.parts) }
    requires fits { HeldFit SliceFits (2 ^ 62) (meant meaning_of held.now.parts) }
    ensures { IfOk result (IsJudged (declared_by script.now) held.now.parts entry.now) }
{
    match wanted(script, held, entry.actor, who) {
        Wanted::Nothing => Ok(Verdict::NotLegal),
        Wanted::Needs(place) => Ok(Verdict::Needs(place)),
        Wanted::Wants(want) => judge_want(alloc, script, chains, held, who, want, entry),
    }
}

fn judge_want(
    alloc: Global,
    script: &Script,
    chains: &[Chain],
    held: &Held<Part>,
    who: Activity,
    want: Want,
    entry: &Entry,
) -> Result<Verdict<(Entry, Work)>, NoMemory>
    requires asked { IsAsked (declared_by script.now) held.now.parts entry.now.actor who want }
    requires chains { chains.now ≡ chains_of (declared_by script.now) }
    ensures { IfOk result (IsJudged (declared_by script.now) held.now.parts entry.now) }
{
    let deed = match may(alloc, script, held, entry.actor, who, want)? {
        Answer::NotYet => return Ok(Verdict::NotLegal),
        Answer::Needs(place) => return Ok(Verdict::Needs(place)),
        Answer::May(deed) => deed,
    };
    let own = entry_of(alloc, entry.actor, deed)?;
    if !is_same(&own.act, &entry.act) {
        return Ok(Verdict::NotLegal);
    }
    held.ascends();
    let made = make(alloc, script, chains, held, who, want)?;
    Ok(Verdict::Ready((own, made)))
}

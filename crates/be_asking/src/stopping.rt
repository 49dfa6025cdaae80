//! The end of a run.
ghost use Rattle.std.specs.Prelude.{◌≡◌, IfOk, IfErr, length, true};
ghost use Rattle.std.specs.List.{list_all, range_with_len};
ghost use Rattle.be_asking.specs.Deeds.{IsAnswer, IsAsked};
ghost use Rattle.be_asking.specs.Stopping.{HasAll, HasApps, HasWindows, IsLost, Tells, can_stop};
ghost use Rattle.be_asking.specs.declared.activity.Activity.TheVariants as who;
ghost use Rattle.be_asking.specs.declared.want.Want.TheVariants as want;
ghost use Rattle.be_hall.specs.Hands.{meant};
ghost use Rattle.be_hall.specs.Machine.{SomeFits};
ghost use Rattle.be_machine.specs.Closing.{all_quiet};
ghost use Rattle.be_machine.specs.Program.{has_ended};
ghost use Rattle.be_parts.specs.Parts.{meaning_of};
ghost use Rattle.be_rules.specs.Rules.{world_machine};
ghost use Rattle.be_script.specs.Limits.{IsWithinLimits};
ghost use Rattle.be_script.specs.Script.{declared_by};

use crate::deed::{Answer, Deed};
use crate::ended::has_ended;
use crate::finding::{find_desk, find_input};
use crate::quiet::is_quiet;
use be_hall::Held;
use be_machine::Act;
use be_parts::Part;
use be_script::Script;

/// The run stops where each application is at its end, each event is used, and nothing of any
/// window is on its way. All parts are needed for that; one alone can tell that it has to wait. It
/// looks at each application and each window once, and at no pixel.
pub fn may_stop<'a>(script: &Script, held: &Held<Part>, number: u32) -> Answer<'a>
    requires { IsAsked (declared_by script.now) held.now.parts number who.Closing want.Stops }
    ensures { IsAnswer (declared_by script.now) (meant meaning_of held.now.parts) number result }
{
    let _asked = number;
    match can_stop(script, held) {
        Err(place) => Answer::Needs(place),
        Ok(true) => Answer::May(Deed::Makes(Act::Stop)),
        Ok(false) => Answer::NotYet,
    }
}

/// Whether nothing is left to do. The error is the place of a part that isn't in hand.
fn can_stop(script: &Script, held: &Held<Part>) -> Result<bool, u32>
    requires limits { IsWithinLimits (declared_by script.now) }
    requires fitting { SomeFits (world_machine (declared_by script.now))
        (meant meaning_of held.now.parts) }
    ensures told { IfOk result (Tells (declared_by script.now) held.now.parts
        (can_stop (declared_by script.now))) }
    ensures there { IfOk result (λ over. over ≡ true → HasAll (declared_by script.now)
        held.now.parts) }
    ensures lost { IfErr result (IsLost (declared_by script.now) held.now.parts) }
{
    let _desk = find_desk(script, held)?;
    let input = find_input(script, held)?;
    if input.has_stopped() {
        return Ok(false);
    }
    if input.used() != script.input.len() as u64 {
        return Ok(false);
    }
    if !all_ended(script, held)? {
        return Ok(false);
    }
    all_quiet(script, held)
}

/// Whether each application is at its end.
fn all_ended(script: &Script, held: &Held<Part>) -> Result<bool, u32>
    requires limits { IsWithinLimits (declared_by script.now) }
    requires fitting { SomeFits (world_machine (declared_by script.now))
        (meant meaning_of held.now.parts) }
    ensures told { IfOk result (Tells (declared_by script.now) held.now.parts
        (λ s. list_all (has_ended (declared_by script.now) s)
        (range_with_len 0 (length s.apps)))) }
    ensures there { IfOk result (λ ended. ended ≡ true → HasApps (declared_by script.now)
        held.now.parts) }
    ensures lost { IfErr result (IsLost (declared_by script.now) held.now.parts) }
{
    for app in 0..script.apps.len() as u16 {
        if !has_ended(script, held, app)? {
            return Ok(false);
        }
    }
    Ok(true)
}

/// Whether nothing of any window is on its way.
fn all_quiet(script: &Script, held: &Held<Part>) -> Result<bool, u32>
    requires limits { IsWithinLimits (declared_by script.now) }
    requires fitting { SomeFits (world_machine (declared_by script.now))
        (meant meaning_of held.now.parts) }
    ensures told { IfOk result (Tells (declared_by script.now) held.now.parts all_quiet) }
    ensures there { IfOk result (λ quiet. quiet ≡ true → HasWindows (declared_by script.now)
        held.now.parts) }
    ensures lost { IfErr result (IsLost (declared_by script.now) held.now.parts) }
{
    for window in 0..script.windows.len() as u16 {
        if !is_quiet(script, held, window)? {
            return Ok(false);
        }
    }
    Ok(true)
}

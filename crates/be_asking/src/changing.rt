//! A change of a window, the oldest command of its link: the desk decides.
ghost use Rattle.std.specs.Prelude.{◌≡◌, Result, IfOk, is_some, map, find};
ghost use Rattle.be_asking.specs.Changing.{IsRefusedWith, first_missing, is_out};
ghost use Rattle.be_asking.specs.Deeds.{IsAnswer, IsAsked};
ghost use Rattle.be_asking.specs.Executing.{IsOldest};
ghost use Rattle.be_asking.specs.declared.activity.Activity.TheVariants as who;
ghost use Rattle.be_asking.specs.declared.want.Want.TheVariants as want;
ghost use Rattle.be_command.specs.declared.Command.TheVariants as command;
ghost use Rattle.be_desk.specs.Changes as machine;
ghost use Rattle.be_desk.specs.Desks.{IsRefusedFor};
ghost use Rattle.be_hall.specs.Hands.{meant, part_at};
ghost use Rattle.be_machine.specs.Touched as part;
ghost use Rattle.be_parts.specs.Parts.{meaning_of};
ghost use Rattle.be_rules.specs.Sure.{port_for};
ghost use Rattle.be_script.specs.Limits.{IsWithinLimits};
ghost use Rattle.be_script.specs.Script.{declared_by};
ghost use Rattle.be_stack.specs.declared.fault.ChangeFault as faults;

use crate::deed::{Answer, Deed};
use crate::finding::{find_desk, find_pane};
use crate::places::{pane_place, port_place};
use be_desk::{PlanFault, affected};
use be_geom::{Change, NoMemory};
use be_hall::Held;
use be_machine::Act;
use be_machine::laws::waiting_commands_are_within_limits;
use be_parts::Part;
use be_script::Script;
use be_twin::Outcome;
use std::alloc::Global;

/// Whether a twin may execute a change of its window. Beside the link it needs the desk, the port
/// where the window is closed, the window's pane, and the pane of each window that wins or loses
/// pixels. A change that the desk refuses is executed too, and alters none of them.
///
/// It costs the rectangles of the windows whose frames meet the window's, and their memory.
pub fn may_change<'a>(
    alloc: Global,
    script: &Script,
    held: &Held<Part>,
    number: u32,
    w: u16,
    front: u64,
    change: &Change,
) -> Result<Answer<'a>, NoMemory>
    requires asked { IsAsked (declared_by script.now) held.now.parts number (who.Twin w)
        (want.Executes w) }
    requires oldest { IsOldest (declared_by script.now) held.now.parts w front
        (command.Change change.now) }
    ensures { IfOk result
        (IsAnswer (declared_by script.now) (meant meaning_of held.now.parts) number) }
{
    let part = match find_desk(script, held) {
        Ok(part) => part,
        Err(place) => return Ok(Answer::Needs(place)),
    };
    if let Some(place) = missing_port(script, held, w, change) {
        return Ok(Answer::Needs(place));
    }
    if let Err(place) = find_pane(script, held, w) {
        return Ok(Answer::Needs(place));
    }
    waiting_commands_are_within_limits();
    match affected(alloc, part.desk(), w, change) {
        Ok(names) => match missing_pane(script, held, &names) {
            Some(place) => Ok(Answer::Needs(place)),
            None => Ok(Answer::May(Deed::Makes(Act::Exec(front, Outcome::Done)))),
        },
        Err(fault) => {
            let outcome = refusal(fault)?;
            Ok(Answer::May(Deed::Makes(Act::Exec(front, outcome))))
        }
    }
}

/// The place of the window's port, where the window is closed and its port isn't in hand.
fn missing_port(script: &Script, held: &Held<Part>, w: u16, change: &Change) -> Option<u32>
    requires { IsWithinLimits (declared_by script.now) }
    ensures { result ≡ first_missing (declared_by script.now) held.now.parts
        (port_for w change.now) }
{
    match change {
        Change::Close => {
            let place = port_place(script, w);
            if has_part(held, place) {
                None
            } else {
                Some(place)
            }
        }
        Change::Show
        | Change::Hide
        | Change::MoveTo(_)
        | Change::MoveBy(_, _)
        | Change::ResizeTo(_, _)
        | Change::Activate
        | Change::Behind(_)
        | Change::Focus(_) => None,
    }
}

/// The place of the first of these windows' panes that isn't in hand.
fn missing_pane(script: &Script, held: &Held<Part>, names: &[u16]) -> Option<u32>
    requires { IsWithinLimits (declared_by script.now) }
    ensures { result ≡ first_missing (declared_by script.now) held.now.parts
        (map part.pane names.now) }
{
    let window = first_without(script, held, names)?;
    Some(pane_place(script, window))
}

fn first_without(script: &Script, held: &Held<Part>, names: &[u16]) -> Option<u16>
    requires { IsWithinLimits (declared_by script.now) }
    ensures { result
        ≡ find (λ w. is_out (declared_by script.now) held.now.parts (part.pane w)) names.now }
{
    names
        .iter()
        .copied()
        .find(|w| has_no_pane(script, held, *w))
}

fn has_no_pane(script: &Script, held: &Held<Part>, w: u16) -> bool
    requires { IsWithinLimits (declared_by script.now) }
    ensures { result ≡ is_out (declared_by script.now) held.now.parts (part.pane w) }
{
    !has_part(held, pane_place(script, w))
}

fn has_part(held: &Held<Part>, place: u32) -> bool
    ensures { result ≡ is_some (part_at held.now.parts place) }
{
    held.get(place).is_some()
}

/// What comes of a change that is refused.
fn refusal(fault: PlanFault) -> Result<Outcome, NoMemory>
    ensures { IfOk result (λ outcome. (after : Result machine.Desk faults.ChangeFault)
        → IsRefusedFor after fault → IsRefusedWith after outcome) }
{
    match fault {
        PlanFault::Gone => Ok(Outcome::Gone),
        PlanFault::OffRange => Ok(Outcome::OffRange),
        PlanFault::NoMemory => Err(NoMemory),
    }
}

//! A change of a window, made ready.
ghost use Rattle.std.specs.Prelude.{IfOk};
ghost use Rattle.be_asking.specs.declared.activity.Activity.TheVariants as who;
ghost use Rattle.be_asking.specs.declared.want.Want.TheVariants as want;
ghost use Rattle.be_changes.specs.Planned.{IsNextChange};
ghost use Rattle.be_ready.specs.Planning.{IsPlanning, IsRefusal};
ghost use Rattle.be_script.specs.Script.{declared_by};
ghost use Rattle.be_steps.specs.Steps.{IsAllowed};

use crate::plans::plan_for;
use crate::there::desk_there;
use be_desk::{Plan, PlanFault};
use be_geom::{Change, NoMemory};
use be_hall::Held;
use be_machine::laws::waiting_commands_are_within_limits;
use be_parts::Part;
use be_script::Script;
use std::alloc::Global;

/// What is made ready of a change of a window.
#[derive(Drop)]
pub enum Planning {
    /// The plan, and the places of its panes in the plan's order.
    Planned(Plan, Vec<u32>),
    /// The desk refuses the change.
    Refused,
}

/// Makes ready a change of window `w`, the oldest command of its link, with the panes of the
/// windows that win or lose pixels by it. All of them are in hand.
///
/// It costs the rectangles of the windows whose frames meet the window's, and the pixels of those
/// that win or lose some, are moved or resized.
pub fn planned(
    alloc: Global,
    script: &Script,
    held: &Held<Part>,
    w: u16,
    change: &Change,
) -> Result<Planning, NoMemory>
    requires allowed { IsAllowed (declared_by script.now) held.now.parts (who.Twin w)
        (want.Executes w) }
    requires next { IsNextChange (declared_by script.now) held.now.parts w change.now }
    ensures { IfOk result (IsPlanning (declared_by script.now) held.now.parts w change.now) }
{
    let desk = desk_there(script, held).desk();
    waiting_commands_are_within_limits();
    match plan_for(alloc, script, held, desk, w, change) {
        Ok((plan, places)) => Ok(Planning::Planned(plan, places)),
        Err(fault) => refusal(fault),
    }
}

// What comes of a change that isn't planned.
fn refusal(fault: PlanFault) -> Result<Planning, NoMemory>
    ensures { IfOk result (IsRefusal fault) }
{
    match fault {
        PlanFault::Gone | PlanFault::OffRange => Ok(Planning::Refused),
        PlanFault::NoMemory => Err(NoMemory),
    }
}

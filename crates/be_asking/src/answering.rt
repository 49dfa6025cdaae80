//! Whether an activity may have what it wants.
ghost use Rattle.std.specs.Prelude.{IfOk};
ghost use Rattle.be_asking.specs.Deeds.{IsAnswer, IsAsked};
ghost use Rattle.be_asking.specs.declared.activity.Activity.TheVariants as activity;
ghost use Rattle.be_asking.specs.declared.want.Want.TheVariants as want;
ghost use Rattle.be_hall.specs.Hands.{meant};
ghost use Rattle.be_parts.specs.Parts.{meaning_of};
ghost use Rattle.be_script.specs.Script.{declared_by};

use crate::activity::Activity;
use crate::asking::may_ask;
use crate::changing::may_change;
use crate::commands::{may_end_drawing, may_flush};
use crate::deed::Answer;
use crate::ending::may_end;
use crate::executing::{Execution, may_execute};
use crate::letters::may_take;
use crate::stopping::may_stop;
use crate::updating::{may_begin, may_notify};
use crate::using::may_use;
use crate::want::Want;
use be_geom::NoMemory;
use be_hall::Held;
use be_parts::Part;
use be_script::Script;
use std::alloc::Global;

/// Whether an activity may have now what it wants. What a change of a window and an event alter
/// takes memory to tell, and nothing else does.
pub fn may<'a>(
    alloc: Global,
    script: &Script,
    held: &'a Held<Part>,
    number: u32,
    who: Activity,
    want: Want<'a>,
) -> Result<Answer<'a>, NoMemory>
    requires { IsAsked (declared_by script.now) held.now.parts number who want }
    ensures { IfOk result
        (IsAnswer (declared_by script.now) (meant meaning_of held.now.parts) number) }
{
    let _who = who;
    match want {
        Want::Asks(runner, request) => Ok(may_ask(script, held, number, runner, request)),
        Want::Takes(w) => Ok(may_take(script, held, number, w)),
        Want::Begins(w) => Ok(may_begin(script, held, number, w)),
        Want::Flushes(w) => Ok(may_flush(script, held, number, w)),
        Want::DrawsEnd(w) => Ok(may_end_drawing(script, held, number, w)),
        Want::Ends(w) => Ok(may_end(script, held, number, w)),
        Want::Notifies(w) => Ok(may_notify(script, held, number, w)),
        Want::Executes(w) => may_run(alloc, script, held, number, w),
        Want::Uses(line) => may_use(alloc, script, held, number, line),
        Want::Stops => Ok(may_stop(script, held, number)),
    }
}

// A change of the window among the commands.
fn may_run<'a>(
    alloc: Global,
    script: &Script,
    held: &'a Held<Part>,
    number: u32,
    w: u16,
) -> Result<Answer<'a>, NoMemory>
    requires { IsAsked (declared_by script.now) held.now.parts number (activity.Twin w)
        (want.Executes w) }
    ensures { IfOk result
        (IsAnswer (declared_by script.now) (meant meaning_of held.now.parts) number) }
{
    match may_execute(script, held, number, w) {
        Execution::Answered(answer) => Ok(answer),
        Execution::Changes(front, change) => {
            may_change(alloc, script, held, number, w, front, change)
        }
    }
}

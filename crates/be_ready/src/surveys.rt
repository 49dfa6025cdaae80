//! What an update is to draw.
ghost use Rattle.std.specs.Prelude.{IfOk};
ghost use Rattle.be_asking.specs.declared.activity.Activity.TheVariants as who;
ghost use Rattle.be_asking.specs.declared.activity.Runner.TheVariants as by;
ghost use Rattle.be_asking.specs.declared.want.Want.TheVariants as want;
ghost use Rattle.be_script.specs.Script.{declared_by};
ghost use Rattle.be_steps.specs.Steps.{IsAllowed};
ghost use Rattle.be_steps.specs.Surveyed.{IsSurveyedIn};

use crate::there::pane_there;
use be_geom::NoMemory;
use be_hall::Held;
use be_machine::laws::no_session_is_open_at_a_begin;
use be_parts::Part;
use be_script::Script;
use be_update::{Survey, UpdateFault, survey};
use std::alloc::Global;

/// Finds the pixels of window `w` that wait to be drawn, and the views that have them. None where
/// no pixel waits. It looks at each cell of the pane once.
pub fn surveyed(
    alloc: Global,
    script: &Script,
    held: &Held<Part>,
    w: u16,
) -> Result<Option<Survey>, NoMemory>
    requires { IsAllowed (declared_by script.now) held.now.parts (who.Runner (by.Looper w))
        (want.Begins w) }
    ensures { IfOk result (IsSurveyedIn (declared_by script.now) held.now.parts w) }
{
    let part = pane_there(script, held, w);
    no_session_is_open_at_a_begin();
    match survey(alloc, part.pane()) {
        Ok(survey) => Ok(Some(survey)),
        Err(UpdateFault::NothingDirty) => Ok(None),
        Err(UpdateFault::NoMemory) => Err(NoMemory),
        Err(UpdateFault::InSession) => unreachable!(),
    }
}

//! The input uses its next line.
ghost use Rattle.be_asking.specs.declared.activity.Activity.TheVariants as who;
ghost use Rattle.be_asking.specs.declared.want.Want.TheVariants as want;
ghost use Rattle.be_script.specs.Script.{declared_by};
ghost use Rattle.be_steps.specs.Steps.{IsAllowed, IsDone};
ghost use Rattle.be_world.specs.Suits.{IsSuited};

use crate::work::Work;
use be_changes::deliver;
use be_hall::Held;
use be_parts::Part;
use be_script::{InputLine, Script};
use be_steps::use_up;

/// The input has used its next line: what an event of mouse or key delivers arrives.
pub(crate) fn use_line(script: &Script, held: &mut Held<Part>, line: &InputLine, made: Work)
    requires allowed { IsAllowed (declared_by script.now) held.old.parts who.Input
        (want.Uses line) }
    requires suits { IsSuited (declared_by script.now) held.old.parts who.Input
        (want.Uses line) made }
    ensures { IsDone (declared_by script.now) who.Input held.old held.new }
{
    match line {
        InputLine::After(_) => use_up(script, held),
        InputLine::Press(_) | InputLine::Release(_) | InputLine::Move(_) | InputLine::Key(_) => {
            deliver(script, held, made.into_event())
        }
    }
}

ghost use Rattle.be_asking.specs.declared.activity.Activity.TheVariants as who;
ghost use Rattle.be_asking.specs.declared.want.Want.TheVariants as want;
ghost use Rattle.be_script.specs.Script.{declared_by};
ghost use Rattle.be_steps.specs.Steps.{IsAllowed, IsDone};

use crate::input::input_is_there;
use be_asking::input_place;
use be_hall::Held;
use be_parts::{Part, input_to_change};
use be_script::Script;

/// The run stops. All other parts stay as they are.
pub fn stop(script: &Script, held: &mut Held<Part>)
    requires { IsAllowed (declared_by script.now) held.old.parts who.Closing want.Stops }
    ensures { IsDone (declared_by script.now) who.Closing held.old held.new }
{
    input_is_there(script, held);
    input_to_change(held, input_place()).stop();
}

ghost use Rattle.be_asking.specs.declared.activity.Activity.TheVariants as who;
ghost use Rattle.be_asking.specs.declared.want.Request.TheVariants as request;
ghost use Rattle.be_asking.specs.declared.want.Want.TheVariants as want;
ghost use Rattle.be_script.specs.Script.{declared_by};
ghost use Rattle.be_steps.specs.Steps.{IsAllowed, IsDone};

use crate::going::{go_to, place_past};
use crate::there::own_is_there;
use be_asking::{Request, Runner};
use be_hall::Held;
use be_message::Text;
use be_parts::Part;
use be_script::Script;

/// A note is made: its runner goes on, and the history has the word.
pub fn note(script: &Script, held: &mut Held<Part>, runner: Runner, text: &Text)
    requires { IsAllowed (declared_by script.now) held.old.parts (who.Runner runner)
        (want.Asks runner (request.Note text)) }
    ensures { IsDone (declared_by script.now) (who.Runner runner) held.old held.new }
{
    own_is_there(script, held, runner);
    let place = place_past(script, held, runner, Request::Note(text), false);
    go_to(script, held, runner, place);
}

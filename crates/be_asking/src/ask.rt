ghost use Rattle.std.specs.Prelude.{◌≡◌, Some};
ghost use Rattle.be_asking.specs.Wants.{IsWanted, activity_in};
ghost use Rattle.be_hall.specs.Hands.{meant};
ghost use Rattle.be_hall.specs.Machine.{SomeFits};
ghost use Rattle.be_machine.specs.Activities as machine;
ghost use Rattle.be_parts.specs.Parts.{meaning_of};
ghost use Rattle.be_rules.specs.Rules.{world_machine};
ghost use Rattle.be_script.specs.Limits.{IsWithinLimits};
ghost use Rattle.be_script.specs.Script.{declared_by};

use crate::activity::{Activity, Runner};
use crate::apps::wanted_by_app;
use crate::bodies::wanted_by_looper;
use crate::twins::{wanted_by_closing, wanted_by_input, wanted_by_twin};
use crate::want::Wanted;
use be_hall::Held;
use be_parts::Part;
use be_script::Script;

/// What an activity wants, told by the parts in hand. It takes no memory.
///
/// It looks at one instruction. An application that draws looks back through its program for its
/// lock, and a looper looks for its body among the script's.
pub fn wanted<'a>(script: &'a Script, held: &Held<Part>, number: u32, who: Activity) -> Wanted<'a>
    requires limits { IsWithinLimits (declared_by script.now) }
    requires number { machine.activity_of (declared_by script.now) number ≡ Some (activity_in who) }
    requires fitting { SomeFits (world_machine (declared_by script.now))
        (meant meaning_of held.now.parts) }
    ensures { IsWanted (declared_by script.now) (meant meaning_of held.now.parts) number
        (activity_in who) result }
{
    match who {
        Activity::Runner(Runner::App(app)) => wanted_by_app(script, held, number, app),
        Activity::Runner(Runner::Looper(window)) => wanted_by_looper(script, held, number, window),
        Activity::Twin(window) => wanted_by_twin(script, held, number, window),
        Activity::Input => wanted_by_input(script, held, number),
        Activity::Closing => wanted_by_closing(script, held, number),
    }
}

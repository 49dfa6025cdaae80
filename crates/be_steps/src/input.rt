//! The input goes on.
ghost use Rattle.std.specs.Prelude.{◌≡◌, Some};
ghost use Rattle.be_asking.specs.declared.activity.Activity.TheVariants as who;
ghost use Rattle.be_hall.specs.Hands.{part_at};
ghost use Rattle.be_machine.specs.Touched as part;
ghost use Rattle.be_parts.specs.Kept.{Kept};
ghost use Rattle.be_rules.specs.Places.{place_of};
ghost use Rattle.be_script.specs.Script.{declared_by};
ghost use Rattle.be_steps.specs.Steps.{IsDone};
ghost use Rattle.be_steps.specs.There.{IsThere};
ghost use Rattle.be_steps.specs.Using.{MayGoOn};

use be_asking::{find_input, input_place};
use be_hall::Held;
use be_parts::{Part, input_to_change};
use be_script::Script;

/// The input's part is stored as one.
pub fn input_is_there(script: &Script, held: &Held<Part>)
    requires { IsThere (declared_by script.now) held.now.parts part.input }
    ensures { (k : Kept) × (part_at held.now.parts (place_of (declared_by script.now) part.input)
        ≡ Some (Part.Input k)) }
{
    match find_input(script, held) {
        Ok(_) => {}
        Err(_) => unreachable!(),
    }
}

/// The input has waited for an application's end, and goes on. The application stays as it is.
pub fn use_up(script: &Script, held: &mut Held<Part>)
    requires { MayGoOn (declared_by script.now) held.old.parts }
    ensures { IsDone (declared_by script.now) who.Input held.old held.new }
{
    input_is_there(script, held);
    input_to_change(held, input_place()).use_event();
}

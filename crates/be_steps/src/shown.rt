//! A window's pane is in hand.
ghost use Rattle.std.specs.Prelude.{◌≡◌, Some};
ghost use Rattle.be_hall.specs.Hands.{part_at};
ghost use Rattle.be_machine.specs.Touched as part;
ghost use Rattle.be_parts.specs.Kept.{Kept};
ghost use Rattle.be_rules.specs.Places.{place_of};
ghost use Rattle.be_script.specs.Script.{declared_by};
ghost use Rattle.be_steps.specs.There.{IsThere};

use be_asking::find_pane;
use be_hall::Held;
use be_parts::Part;
use be_script::Script;

/// A pane's part is stored as one.
pub(crate) fn pane_is_there(script: &Script, held: &Held<Part>, w: u16)
    requires { IsThere (declared_by script.now) held.now.parts (part.pane w) }
    ensures { (k : Kept) × (part_at held.now.parts (place_of (declared_by script.now) (part.pane w))
        ≡ Some (Part.Pane k)) }
{
    match find_pane(script, held, w) {
        Ok(_) => {}
        Err(_) => unreachable!(),
    }
}

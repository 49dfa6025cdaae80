//! The parts that a step needs are in hand, each as what it is.
ghost use Rattle.std.specs.Prelude.{◌≡◌, Some};
ghost use Rattle.be_asking.specs.Wants.{runner_in};
ghost use Rattle.be_hall.specs.Hands.{part_at};
ghost use Rattle.be_machine.specs.Touched as part;
ghost use Rattle.be_machine.specs.Touched.{own_part};
ghost use Rattle.be_parts.specs.Kept.{Kept};
ghost use Rattle.be_rules.specs.Places.{place_of};
ghost use Rattle.be_rules.specs.Slices.{Slice};
ghost use Rattle.be_script.specs.Script.{declared_by};
ghost use Rattle.be_steps.specs.Going.{HasOwn};
ghost use Rattle.be_steps.specs.There.{IsThere};

use be_asking::{Runner, find_cell, find_link, find_looper, find_port};
use be_hall::Held;
use be_parts::Part;
use be_script::Script;

/// An application's part is stored as one.
pub(crate) fn cell_is_there(script: &Script, held: &Held<Part>, m: u16)
    requires { IsThere (declared_by script.now) held.now.parts (part.cell m) }
    ensures { (k : Kept) × (part_at held.now.parts (place_of (declared_by script.now) (part.cell m))
        ≡ Some (Part.Cell k)) }
{
    match find_cell(script, held, m) {
        Ok(_) => {}
        Err(_) => unreachable!(),
    }
}

/// A looper's part is stored as one.
pub(crate) fn looper_is_there(script: &Script, held: &Held<Part>, w: u16)
    requires { IsThere (declared_by script.now) held.now.parts (part.looper w) }
    ensures { (k : Kept)
        × (part_at held.now.parts (place_of (declared_by script.now) (part.looper w))
        ≡ Some (Part.Looper k)) }
{
    match find_looper(script, held, w) {
        Ok(_) => {}
        Err(_) => unreachable!(),
    }
}

/// A port's part is stored as one.
pub(crate) fn port_is_there(script: &Script, held: &Held<Part>, w: u16)
    requires { IsThere (declared_by script.now) held.now.parts (part.port w) }
    ensures { (k : Slice)
        × (part_at held.now.parts (place_of (declared_by script.now) (part.port w))
        ≡ Some (Part.Port k)) }
{
    match find_port(script, held, w) {
        Ok(_) => {}
        Err(_) => unreachable!(),
    }
}

/// A link's part is stored as one.
pub(crate) fn link_is_there(script: &Script, held: &Held<Part>, w: u16)
    requires { IsThere (declared_by script.now) held.now.parts (part.link w) }
    ensures { (k : Slice)
        × (part_at held.now.parts (place_of (declared_by script.now) (part.link w))
        ≡ Some (Part.Link k)) }
{
    match find_link(script, held, w) {
        Ok(_) => {}
        Err(_) => unreachable!(),
    }
}

/// A runner's own part is stored as one.
pub(crate) fn own_is_there(script: &Script, held: &Held<Part>, runner: Runner)
    requires { IsThere (declared_by script.now) held.now.parts (own_part (runner_in runner)) }
    ensures { HasOwn (declared_by script.now) held.now.parts runner }
{
    match runner {
        Runner::App(m) => cell_is_there(script, held, m),
        Runner::Looper(w) => looper_is_there(script, held, w),
    }
}

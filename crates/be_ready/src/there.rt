//! The parts that are looked at are in hand.
ghost use Rattle.std.specs.Prelude.{◌≡◌, Some};
ghost use Rattle.be_hall.specs.Hands.{part_at};
ghost use Rattle.be_machine.specs.Touched as part;
ghost use Rattle.be_rules.specs.Places.{place_of};
ghost use Rattle.be_script.specs.Script.{declared_by};
ghost use Rattle.be_steps.specs.There.{IsThere};

use be_asking::{find_cell, find_desk, find_looper, find_pane, find_port};
use be_hall::Held;
use be_parts::{CellPart, DeskPart, LooperPart, PanePart, Part, PortPart};
use be_script::Script;

/// The desk.
pub(crate) fn desk_there<'a>(script: &Script, held: &'a Held<Part>) -> &'a DeskPart
    requires { IsThere (declared_by script.now) held.now.parts part.desk }
    ensures { part_at held.now.parts (place_of (declared_by script.now) part.desk)
        ≡ Some (Part.Desk result.now) }
{
    match find_desk(script, held) {
        Ok(part) => part,
        Err(_) => unreachable!(),
    }
}

/// The port of a window.
pub(crate) fn port_there<'a>(script: &Script, held: &'a Held<Part>, w: u16) -> &'a PortPart
    requires { IsThere (declared_by script.now) held.now.parts (part.port w) }
    ensures { part_at held.now.parts (place_of (declared_by script.now) (part.port w))
        ≡ Some (Part.Port result.now) }
{
    match find_port(script, held, w) {
        Ok(part) => part,
        Err(_) => unreachable!(),
    }
}

/// The pane of a window.
pub(crate) fn pane_there<'a>(script: &Script, held: &'a Held<Part>, w: u16) -> &'a PanePart
    requires { IsThere (declared_by script.now) held.now.parts (part.pane w) }
    ensures { part_at held.now.parts (place_of (declared_by script.now) (part.pane w))
        ≡ Some (Part.Pane result.now) }
{
    match find_pane(script, held, w) {
        Ok(part) => part,
        Err(_) => unreachable!(),
    }
}

/// An application's part.
pub(crate) fn cell_there<'a>(script: &Script, held: &'a Held<Part>, m: u16) -> &'a CellPart
    requires { IsThere (declared_by script.now) held.now.parts (part.cell m) }
    ensures { part_at held.now.parts (place_of (declared_by script.now) (part.cell m))
        ≡ Some (Part.Cell result.now) }
{
    match find_cell(script, held, m) {
        Ok(cell) => cell,
        Err(_) => unreachable!(),
    }
}

/// A looper's part.
pub(crate) fn looper_there<'a>(script: &Script, held: &'a Held<Part>, w: u16) -> &'a LooperPart
    requires { IsThere (declared_by script.now) held.now.parts (part.looper w) }
    ensures { part_at held.now.parts (place_of (declared_by script.now) (part.looper w))
        ≡ Some (Part.Looper result.now) }
{
    match find_looper(script, held, w) {
        Ok(looper) => looper,
        Err(_) => unreachable!(),
    }
}

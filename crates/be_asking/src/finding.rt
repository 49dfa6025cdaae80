//! The part that something of the machine is, where it is in hand, and else its place.
ghost use Rattle.std.specs.Prelude.{◌≡◌, Some, IfOk, IfErr};
ghost use Rattle.be_asking.specs.Finding.{IsMissing, IsReachable};
ghost use Rattle.be_hall.specs.Hands.{part_at};
ghost use Rattle.be_machine.specs.Touched as part;
ghost use Rattle.be_rules.specs.Places.{place_of};
ghost use Rattle.be_script.specs.Script.{declared_by};

use crate::places::{link_place, looper_place, pane_place, port_place};
use be_hall::Held;
use be_parts::{
    CellPart, DeskPart, InputPart, LinkPart, LooperPart, PanePart, Part, PortPart, cell_in_hand,
    desk_in_hand, input_in_hand, link_in_hand, looper_in_hand, pane_in_hand, port_in_hand,
};
use be_script::Script;

/// The desk. Its place where it isn't in hand.
pub fn find_desk<'a>(script: &Script, held: &'a Held<Part>) -> Result<&'a DeskPart, u32>
    requires { IsReachable (declared_by script.now) held.now.parts part.desk }
    ensures there { IfOk result (λ p. part_at held.now.parts
        (place_of (declared_by script.now) part.desk) ≡ Some (Part.Desk p.now)) }
    ensures missing { IfErr result (λ place. IsMissing (declared_by script.now) held.now.parts
        part.desk place) }
{
    let place = 0;
    desk_in_hand(held, place).ok_or(place)
}

/// The input. Its place where it isn't in hand.
pub fn find_input<'a>(script: &Script, held: &'a Held<Part>) -> Result<&'a InputPart, u32>
    requires { IsReachable (declared_by script.now) held.now.parts part.input }
    ensures there { IfOk result (λ p. part_at held.now.parts
        (place_of (declared_by script.now) part.input) ≡ Some (Part.Input p.now)) }
    ensures missing { IfErr result (λ place. IsMissing (declared_by script.now) held.now.parts
        part.input place) }
{
    let place = 1;
    input_in_hand(held, place).ok_or(place)
}

/// An application's part. Its place where it isn't in hand.
pub fn find_cell<'a>(script: &Script, held: &'a Held<Part>, m: u16) -> Result<&'a CellPart, u32>
    requires { IsReachable (declared_by script.now) held.now.parts (part.cell m) }
    ensures there { IfOk result (λ p. part_at held.now.parts
        (place_of (declared_by script.now) (part.cell m)) ≡ Some (Part.Cell p.now)) }
    ensures missing { IfErr result (λ place. IsMissing (declared_by script.now) held.now.parts
        (part.cell m) place) }
{
    let place = 2 + m as u32;
    cell_in_hand(held, place).ok_or(place)
}

/// The looper of a window. Its place where it isn't in hand.
pub fn find_looper<'a>(script: &Script, held: &'a Held<Part>, w: u16) -> Result<&'a LooperPart, u32>
    requires { IsReachable (declared_by script.now) held.now.parts (part.looper w) }
    ensures there { IfOk result (λ p. part_at held.now.parts
        (place_of (declared_by script.now) (part.looper w)) ≡ Some (Part.Looper p.now)) }
    ensures missing { IfErr result (λ place. IsMissing (declared_by script.now) held.now.parts
        (part.looper w) place) }
{
    let place = looper_place(script, w);
    looper_in_hand(held, place).ok_or(place)
}

/// The port of a window. Its place where it isn't in hand.
pub fn find_port<'a>(script: &Script, held: &'a Held<Part>, w: u16) -> Result<&'a PortPart, u32>
    requires { IsReachable (declared_by script.now) held.now.parts (part.port w) }
    ensures there { IfOk result (λ p. part_at held.now.parts
        (place_of (declared_by script.now) (part.port w)) ≡ Some (Part.Port p.now)) }
    ensures missing { IfErr result (λ place. IsMissing (declared_by script.now) held.now.parts
        (part.port w) place) }
{
    let place = port_place(script, w);
    port_in_hand(held, place).ok_or(place)
}

/// The link of a window. Its place where it isn't in hand.
pub fn find_link<'a>(script: &Script, held: &'a Held<Part>, w: u16) -> Result<&'a LinkPart, u32>
    requires { IsReachable (declared_by script.now) held.now.parts (part.link w) }
    ensures there { IfOk result (λ p. part_at held.now.parts
        (place_of (declared_by script.now) (part.link w)) ≡ Some (Part.Link p.now)) }
    ensures missing { IfErr result (λ place. IsMissing (declared_by script.now) held.now.parts
        (part.link w) place) }
{
    let place = link_place(script, w);
    link_in_hand(held, place).ok_or(place)
}

/// The pane of a window. Its place where it isn't in hand.
pub fn find_pane<'a>(script: &Script, held: &'a Held<Part>, w: u16) -> Result<&'a PanePart, u32>
    requires { IsReachable (declared_by script.now) held.now.parts (part.pane w) }
    ensures there { IfOk result (λ p. part_at held.now.parts
        (place_of (declared_by script.now) (part.pane w)) ≡ Some (Part.Pane p.now)) }
    ensures missing { IfErr result (λ place. IsMissing (declared_by script.now) held.now.parts
        (part.pane w) place) }
{
    let place = pane_place(script, w);
    pane_in_hand(held, place).ok_or(place)
}

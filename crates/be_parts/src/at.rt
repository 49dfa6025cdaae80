//! A part of one kind, by its place among those in hand.
ghost use Rattle.std.specs.Prelude.{◌≡◌, Some};
ghost use Rattle.std.specs.Borrow.{Lends, sem};
ghost use Rattle.be_hall.specs.Hands.{part_at};
ghost use Rattle.be_hall.specs.contracts.held.Held as hands;
ghost use Rattle.be_parts.specs.Kept.{Kept};
ghost use Rattle.be_parts.specs.Parts.{hand_with};
ghost use Rattle.be_parts.specs.contracts.part.Part as parts;
ghost use Rattle.be_parts.specs.contracts.desk.DeskPart as desks;
ghost use Rattle.be_parts.specs.contracts.input.InputPart as inputs;
ghost use Rattle.be_parts.specs.contracts.cell.CellPart as cells;
ghost use Rattle.be_parts.specs.contracts.looper.LooperPart as loopers;
ghost use Rattle.be_parts.specs.contracts.port.PortPart as ports;
ghost use Rattle.be_parts.specs.contracts.link.LinkPart as links;
ghost use Rattle.be_parts.specs.contracts.pane.PanePart as panes;
ghost use Rattle.be_rules.specs.Slices.{Slice};

use crate::cell::CellPart;
use crate::desk::DeskPart;
use crate::input::InputPart;
use crate::link::LinkPart;
use crate::looper::LooperPart;
use crate::pane::PanePart;
use crate::part::Part;
use crate::port::PortPart;
use be_hall::Held;

/// The desk at this place.
pub fn desk_at(held: &Held<Part>, place: u32) -> &DeskPart
    requires { (p : Slice) × (part_at held.now.parts place ≡ Some (Part.Desk p)) }
    ensures { part_at held.now.parts place ≡ Some (Part.Desk result.now) }
{
    held.get(place).unwrap().desk()
}

/// The desk at this place, to be changed.
pub fn desk_to_change(held: &mut Held<Part>, place: u32) -> &mut DeskPart
    requires { (p : Slice) × (part_at held.old.parts place ≡ Some (Part.Desk p)) }
    ensures* writes_back { sem 𝓛 (Lends (hands.the_row parts.the_row) desks.the_row
        held.entry result (λ p. hand_with held.old place (Part.Desk p))) }
    ensures value { part_at held.old.parts place ≡ Some (Part.Desk result.now) }
{
    held.get_mut(place).unwrap().desk_mut()
}

/// The input at this place.
pub fn input_at(held: &Held<Part>, place: u32) -> &InputPart
    requires { (p : Kept) × (part_at held.now.parts place ≡ Some (Part.Input p)) }
    ensures { part_at held.now.parts place ≡ Some (Part.Input result.now) }
{
    held.get(place).unwrap().input()
}

/// The input at this place, to be changed.
pub fn input_to_change(held: &mut Held<Part>, place: u32) -> &mut InputPart
    requires { (p : Kept) × (part_at held.old.parts place ≡ Some (Part.Input p)) }
    ensures* writes_back { sem 𝓛 (Lends (hands.the_row parts.the_row) inputs.the_row
        held.entry result (λ p. hand_with held.old place (Part.Input p))) }
    ensures value { part_at held.old.parts place ≡ Some (Part.Input result.now) }
{
    held.get_mut(place).unwrap().input_mut()
}

/// The application at this place.
pub fn cell_at(held: &Held<Part>, place: u32) -> &CellPart
    requires { (p : Kept) × (part_at held.now.parts place ≡ Some (Part.Cell p)) }
    ensures { part_at held.now.parts place ≡ Some (Part.Cell result.now) }
{
    held.get(place).unwrap().cell()
}

/// The application at this place, to be changed.
pub fn cell_to_change(held: &mut Held<Part>, place: u32) -> &mut CellPart
    requires { (p : Kept) × (part_at held.old.parts place ≡ Some (Part.Cell p)) }
    ensures* writes_back { sem 𝓛 (Lends (hands.the_row parts.the_row) cells.the_row
        held.entry result (λ p. hand_with held.old place (Part.Cell p))) }
    ensures value { part_at held.old.parts place ≡ Some (Part.Cell result.now) }
{
    held.get_mut(place).unwrap().cell_mut()
}

/// The looper at this place.
pub fn looper_at(held: &Held<Part>, place: u32) -> &LooperPart
    requires { (p : Kept) × (part_at held.now.parts place ≡ Some (Part.Looper p)) }
    ensures { part_at held.now.parts place ≡ Some (Part.Looper result.now) }
{
    held.get(place).unwrap().looper()
}

/// The looper at this place, to be changed.
pub fn looper_to_change(held: &mut Held<Part>, place: u32) -> &mut LooperPart
    requires { (p : Kept) × (part_at held.old.parts place ≡ Some (Part.Looper p)) }
    ensures* writes_back { sem 𝓛 (Lends (hands.the_row parts.the_row) loopers.the_row
        held.entry result (λ p. hand_with held.old place (Part.Looper p))) }
    ensures value { part_at held.old.parts place ≡ Some (Part.Looper result.now) }
{
    held.get_mut(place).unwrap().looper_mut()
}

/// The port at this place.
pub fn port_at(held: &Held<Part>, place: u32) -> &PortPart
    requires { (p : Slice) × (part_at held.now.parts place ≡ Some (Part.Port p)) }
    ensures { part_at held.now.parts place ≡ Some (Part.Port result.now) }
{
    held.get(place).unwrap().port()
}

/// The port at this place, to be changed.
pub fn port_to_change(held: &mut Held<Part>, place: u32) -> &mut PortPart
    requires { (p : Slice) × (part_at held.old.parts place ≡ Some (Part.Port p)) }
    ensures* writes_back { sem 𝓛 (Lends (hands.the_row parts.the_row) ports.the_row
        held.entry result (λ p. hand_with held.old place (Part.Port p))) }
    ensures value { part_at held.old.parts place ≡ Some (Part.Port result.now) }
{
    held.get_mut(place).unwrap().port_mut()
}

/// The link at this place.
pub fn link_at(held: &Held<Part>, place: u32) -> &LinkPart
    requires { (p : Slice) × (part_at held.now.parts place ≡ Some (Part.Link p)) }
    ensures { part_at held.now.parts place ≡ Some (Part.Link result.now) }
{
    held.get(place).unwrap().link()
}

/// The link at this place, to be changed.
pub fn link_to_change(held: &mut Held<Part>, place: u32) -> &mut LinkPart
    requires { (p : Slice) × (part_at held.old.parts place ≡ Some (Part.Link p)) }
    ensures* writes_back { sem 𝓛 (Lends (hands.the_row parts.the_row) links.the_row
        held.entry result (λ p. hand_with held.old place (Part.Link p))) }
    ensures value { part_at held.old.parts place ≡ Some (Part.Link result.now) }
{
    held.get_mut(place).unwrap().link_mut()
}

/// The pane at this place.
pub fn pane_at(held: &Held<Part>, place: u32) -> &PanePart
    requires { (p : Kept) × (part_at held.now.parts place ≡ Some (Part.Pane p)) }
    ensures { part_at held.now.parts place ≡ Some (Part.Pane result.now) }
{
    held.get(place).unwrap().pane()
}

/// The pane at this place, to be changed.
pub fn pane_to_change(held: &mut Held<Part>, place: u32) -> &mut PanePart
    requires { (p : Kept) × (part_at held.old.parts place ≡ Some (Part.Pane p)) }
    ensures* writes_back { sem 𝓛 (Lends (hands.the_row parts.the_row) panes.the_row
        held.entry result (λ p. hand_with held.old place (Part.Pane p))) }
    ensures value { part_at held.old.parts place ≡ Some (Part.Pane result.now) }
{
    held.get_mut(place).unwrap().pane_mut()
}

//! A part of one kind, where it is in hand.
ghost use Rattle.std.specs.Prelude.{◌≡◌, option_map};
ghost use Rattle.be_hall.specs.Hands.{part_at};
ghost use Rattle.be_parts.specs.Kinds.{IsOfKind, kind_of, stored_as, of_cell, of_desk, of_input};
ghost use Rattle.be_parts.specs.Kinds.{of_link, of_looper, of_pane, of_port};
ghost use Rattle.be_parts.specs.Parts.{meaning_of};

use crate::cell::CellPart;
use crate::desk::DeskPart;
use crate::input::InputPart;
use crate::link::LinkPart;
use crate::looper::LooperPart;
use crate::pane::PanePart;
use crate::part::Part;
use crate::port::PortPart;
use be_hall::Held;

impl Part {
    /// It means a slice of its kind. It does nothing: its contract is what a caller learns.
    pub fn means_its_kind(&self)
        ensures { kind_of (meaning_of self.now) ≡ stored_as self.now }
    {
        match self {
            Part::Desk(part) => {
                let _desk = part.desk();
            }
            Part::Input(part) => {
                let _used = part.used();
            }
            Part::Cell(part) => {
                let _place = part.place();
            }
            Part::Looper(part) => {
                let _buffer = part.buffer();
            }
            Part::Port(part) => {
                let _port = part.port();
            }
            Part::Link(part) => {
                let _link = part.link();
            }
            Part::Pane(part) => {
                let _pane = part.pane();
            }
        }
    }
}

/// The desk at this place. None where it isn't in hand.
pub fn desk_in_hand(held: &Held<Part>, place: u32) -> Option<&DeskPart>
    requires { IsOfKind of_desk held.now.parts place }
    ensures { option_map (λ p. Part.Desk p.now) result ≡ part_at held.now.parts place }
{
    let part = held.get(place)?;
    part.means_its_kind();
    Some(part.desk())
}

/// The input at this place. None where it isn't in hand.
pub fn input_in_hand(held: &Held<Part>, place: u32) -> Option<&InputPart>
    requires { IsOfKind of_input held.now.parts place }
    ensures { option_map (λ p. Part.Input p.now) result ≡ part_at held.now.parts place }
{
    let part = held.get(place)?;
    part.means_its_kind();
    Some(part.input())
}

/// The application at this place. None where it isn't in hand.
pub fn cell_in_hand(held: &Held<Part>, place: u32) -> Option<&CellPart>
    requires { IsOfKind of_cell held.now.parts place }
    ensures { option_map (λ p. Part.Cell p.now) result ≡ part_at held.now.parts place }
{
    let part = held.get(place)?;
    part.means_its_kind();
    Some(part.cell())
}

/// The looper at this place. None where it isn't in hand.
pub fn looper_in_hand(held: &Held<Part>, place: u32) -> Option<&LooperPart>
    requires { IsOfKind of_looper held.now.parts place }
    ensures { option_map (λ p. Part.Looper p.now) result ≡ part_at held.now.parts place }
{
    let part = held.get(place)?;
    part.means_its_kind();
    Some(part.looper())
}

/// The port at this place. None where it isn't in hand.
pub fn port_in_hand(held: &Held<Part>, place: u32) -> Option<&PortPart>
    requires { IsOfKind of_port held.now.parts place }
    ensures { option_map (λ p. Part.Port p.now) result ≡ part_at held.now.parts place }
{
    let part = held.get(place)?;
    part.means_its_kind();
    Some(part.port())
}

/// The link at this place. None where it isn't in hand.
pub fn link_in_hand(held: &Held<Part>, place: u32) -> Option<&LinkPart>
    requires { IsOfKind of_link held.now.parts place }
    ensures { option_map (λ p. Part.Link p.now) result ≡ part_at held.now.parts place }
{
    let part = held.get(place)?;
    part.means_its_kind();
    Some(part.link())
}

/// The pane at this place. None where it isn't in hand.
pub fn pane_in_hand(held: &Held<Part>, place: u32) -> Option<&PanePart>
    requires { IsOfKind of_pane held.now.parts place }
    ensures { option_map (λ p. Part.Pane p.now) result ≡ part_at held.now.parts place }
{
    let part = held.get(place)?;
    part.means_its_kind();
    Some(part.pane())
}

//! A part as what it is.
ghost use Rattle.std.specs.Prelude.{◌≡◌};
ghost use Rattle.std.specs.Borrow.{Lends, sem};
ghost use Rattle.be_parts.specs.Kept.{Kept};
ghost use Rattle.be_parts.specs.contracts.part.Part as parts;
ghost use Rattle.be_parts.specs.contracts.desk.DeskPart as desks;
ghost use Rattle.be_parts.specs.contracts.input.InputPart as inputs;
ghost use Rattle.be_parts.specs.contracts.cell.CellPart as cells;
ghost use Rattle.be_parts.specs.contracts.looper.LooperPart as loopers;
ghost use Rattle.be_parts.specs.contracts.port.PortPart as ports;
ghost use Rattle.be_parts.specs.contracts.link.LinkPart as links;
ghost use Rattle.be_parts.specs.contracts.pane.PanePart as panes;
ghost use Rattle.be_rules.specs.Slices.{Slice};

use crate::cell::CellPart;
use crate::desk::DeskPart;
use crate::input::InputPart;
use crate::link::LinkPart;
use crate::looper::LooperPart;
use crate::pane::PanePart;
use crate::part::Part;
use crate::port::PortPart;

impl Part {
    pub(crate) fn desk(&self) -> &DeskPart
        requires { (p : Slice) × (self.now ≡ Part.Desk p) }
        ensures { self.now ≡ Part.Desk result.now }
    {
        let Part::Desk(part) = self else {
            unreachable!()
        };
        part
    }

    pub(crate) fn desk_mut(&mut self) -> &mut DeskPart
        requires { (p : Slice) × (self.old ≡ Part.Desk p) }
        ensures* writes_back { sem 𝓛 (Lends parts.the_row desks.the_row self.entry result
            (λ p. Part.Desk p)) }
        ensures value { self.old ≡ Part.Desk result.now }
    {
        let Part::Desk(part) = self else {
            unreachable!()
        };
        part
    }

    pub(crate) fn input(&self) -> &InputPart
        requires { (p : Kept) × (self.now ≡ Part.Input p) }
        ensures { self.now ≡ Part.Input result.now }
    {
        let Part::Input(part) = self else {
            unreachable!()
        };
        part
    }

    pub(crate) fn input_mut(&mut self) -> &mut InputPart
        requires { (p : Kept) × (self.old ≡ Part.Input p) }
        ensures* writes_back { sem 𝓛 (Lends parts.the_row inputs.the_row self.entry result
            (λ p. Part.Input p)) }
        ensures value { self.old ≡ Part.Input result.now }
    {
        let Part::Input(part) = self else {
            unreachable!()
        };
        part
    }

    pub(crate) fn cell(&self) -> &CellPart
        requires { (p : Kept) × (self.now ≡ Part.Cell p) }
        ensures { self.now ≡ Part.Cell result.now }
    {
        let Part::Cell(part) = self else {
            unreachable!()
        };
        part
    }

    pub(crate) fn cell_mut(&mut self) -> &mut CellPart
        requires { (p : Kept) × (self.old ≡ Part.Cell p) }
        ensures* writes_back { sem 𝓛 (Lends parts.the_row cells.the_row self.entry result
            (λ p. Part.Cell p)) }
        ensures value { self.old ≡ Part.Cell result.now }
    {
        let Part::Cell(part) = self else {
            unreachable!()
        };
        part
    }

    pub(crate) fn looper(&self) -> &LooperPart
        requires { (p : Kept) × (self.now ≡ Part.Looper p) }
        ensures { self.now ≡ Part.Looper result.now }
    {
        let Part::Looper(part) = self else {
            unreachable!()
        };
        part
    }

    pub(crate) fn looper_mut(&mut self) -> &mut LooperPart
        requires { (p : Kept) × (self.old ≡ Part.Looper p) }
        ensures* writes_back { sem 𝓛 (Lends parts.the_row loopers.the_row self.entry result
            (λ p. Part.Looper p)) }
        ensures value { self.old ≡ Part.Looper result.now }
    {
        let Part::Looper(part) = self else {
            unreachable!()
        };
        part
    }

    pub(crate) fn port(&self) -> &PortPart
        requires { (p : Slice) × (self.now ≡ Part.Port p) }
        ensures { self.now ≡ Part.Port result.now }
    {
        let Part::Port(part) = self else {
            unreachable!()
        };
        part
    }

    pub(crate) fn port_mut(&mut self) -> &mut PortPart
        requires { (p : Slice) × (self.old ≡ Part.Port p) }
        ensures* writes_back { sem 𝓛 (Lends parts.the_row ports.the_row self.entry result
            (λ p. Part.Port p)) }
        ensures value { self.old ≡ Part.Port result.now }
    {
        let Part::Port(part) = self else {
            unreachable!()
        };
        part
    }

    pub(crate) fn link(&self) -> &LinkPart
        requires { (p : Slice) × (self.now ≡ Part.Link p) }
        ensures { self.now ≡ Part.Link result.now }
    {
        let Part::Link(part) = self else {
            unreachable!()
        };
        part
    }

    pub(crate) fn link_mut(&mut self) -> &mut LinkPart
        requires { (p : Slice) × (self.old ≡ Part.Link p) }
        ensures* writes_back { sem 𝓛 (Lends parts.the_row links.the_row self.entry result
            (λ p. Part.Link p)) }
        ensures value { self.old ≡ Part.Link result.now }
    {
        let Part::Link(part) = self else {
            unreachable!()
        };
        part
    }

    pub(crate) fn pane(&self) -> &PanePart
        requires { (p : Kept) × (self.now ≡ Part.Pane p) }
        ensures { self.now ≡ Part.Pane result.now }
    {
        let Part::Pane(part) = self else {
            unreachable!()
        };
        part
    }

    pub(crate) fn pane_mut(&mut self) -> &mut PanePart
        requires { (p : Kept) × (self.old ≡ Part.Pane p) }
        ensures* writes_back { sem 𝓛 (Lends parts.the_row panes.the_row self.entry result
            (λ p. Part.Pane p)) }
        ensures value { self.old ≡ Part.Pane result.now }
    {
        let Part::Pane(part) = self else {
            unreachable!()
        };
        part
    }
}

ghost use Rattle.std.specs.Prelude.{◌≡◌, ◌<◌, ◌++◌, ◌∷◌, [], true, is_some, option_map, IfOk};
ghost use Rattle.std.specs.Prelude.{IfSome, IfNone};
ghost use Rattle.std.specs.Borrow.{LendsIf, sem};
ghost use Rattle.be_parts.specs.contracts.log.Log as logs;
ghost use Rattle.be_parts.specs.contracts.part.Part as parts;
ghost use Rattle.be_parts.specs.Kept.{joined, note_in};
ghost use Rattle.be_parts.specs.Parts.{log_of, logged_of, meaning_of, notes_of, spare_of, with_log};

use crate::cell::CellPart;
use crate::desk::DeskPart;
use crate::input::InputPart;
use crate::link::LinkPart;
use crate::log::Log;
use crate::looper::LooperPart;
use crate::pane::PanePart;
use crate::port::PortPart;
use be_geom::NoMemory;
use be_machine::Entry;

/// One part of the server, which an activity takes for an entry.
#[derive(Drop)]
pub enum Part {
    Desk(DeskPart),
    Input(InputPart),
    Cell(CellPart),
    Looper(LooperPart),
    Port(PortPart),
    Link(LinkPart),
    Pane(PanePart),
}

impl Part {
    /// The entries that its activity made. None where no activity keeps any there.
    fn log(&mut self) -> Option<&mut Log>
        ensures* writes_back { sem 𝓛 (LendsIf parts.the_row logs.the_row self.entry result
            (with_log self.old) self.old) }
        ensures value { option_map (λ log. log.now) result ≡ logged_of self.old }
    {
        match self {
            Part::Input(part) => Some(&mut part.log),
            Part::Cell(part) => Some(&mut part.log),
            Part::Looper(part) => Some(&mut part.log),
            Part::Pane(part) => Some(&mut part.log),
            Part::Desk(_) | Part::Port(_) | Part::Link(_) => None,
        }
    }

    /// Asks for room for one entry more.
    pub fn make_room(&mut self) -> Result<(), NoMemory>
        ensures slice { meaning_of self.new ≡ meaning_of self.old }
        ensures log { log_of self.new ≡ log_of self.old }
        ensures notes { notes_of self.new ≡ notes_of self.old }
        ensures room { is_some (logged_of self.old) ≡ true
            → IfOk result (λ _. 0 < spare_of self.new) }
    {
        match self.log() {
            Some(log) => log.make_room(),
            None => Ok(()),
        }
    }

    /// Puts an entry behind the others, with the text that its maker noted of it, if any.
    pub fn enter(&mut self, number: u64, entry: Entry, note: Option<Vec<u8>>)
        requires room { 0 < spare_of self.old }
        ensures slice { meaning_of self.new ≡ meaning_of self.old }
        ensures log { log_of self.new ≡ log_of self.old ++ (number, entry) ∷ [] }
        ensures notes { notes_of self.new ≡ notes_of self.old ++ note_in note }
    {
        if let Some(log) = self.log() {
            log.enter(number, entry, note);
        }
    }

    /// Takes the oldest entry out. What was noted stays.
    pub fn unlog(&mut self) -> Option<(u64, Entry)>
        ensures same { meaning_of self.new ≡ meaning_of self.old }
        ensures notes { notes_of self.new ≡ notes_of self.old }
        ensures oldest { IfSome result (λ pair. log_of self.old ≡ pair ∷ log_of self.new) }
        ensures none { IfNone result ((log_of self.old ≡ []) × (log_of self.new ≡ [])) }
    {
        self.log()?.pop()
    }

    /// What its activity noted of its entries, text behind text.
    pub fn notes(&self) -> &[Vec<u8>]
        ensures { joined result.now ≡ notes_of self.now }
    {
        match self {
            Part::Input(part) => part.log.notes(),
            Part::Cell(part) => part.log.notes(),
            Part::Looper(part) => part.log.notes(),
            Part::Pane(part) => part.log.notes(),
            Part::Desk(_) | Part::Port(_) | Part::Link(_) => &[],
        }
    }
}

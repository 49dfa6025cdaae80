ghost use Rattle.std.specs.Prelude.{◌≡◌, [], Some, false, option_map};
ghost use Rattle.be_machine.specs.State.{opening_app};
ghost use Rattle.be_parts.specs.Kept.{IsUnwritten};
ghost use Rattle.be_parts.specs.Cells.{is_waiting, reply_there};
ghost use Rattle.be_parts.specs.Effects.{app_at, app_told};
ghost use Rattle.be_reply.specs.Cells.{claimed, waiting, with_reply};
ghost use Rattle.be_rules.specs.Slices.{app_in, cell};

use crate::log::Log;
use be_actor::Place;
use be_message::Message;
use be_reply::Cell;
use std::alloc::Global;
use std::marker::Model;

/// An application: where it is in its program, and the cell in which it finds its reply.
#[derive(Drop)]
pub struct CellPart {
    app: u16,
    place: Place,
    cell: Cell,
    pub(crate) log: Log,
}

impl Model for CellPart {
    ghost use Rattle.std.specs.Prelude.{Some};
    ghost use Rattle.std.specs.Coded.{codes};
    ghost use Rattle.be_message.specs.Codes.{message_code};
    ghost use Rattle.be_reply.specs.Codes.{cell_code};
    ghost use Rattle.be_parts.specs.Kept.{Kept};
    ghost use Rattle.be_rules.specs.Slices as slices;

    ghost Value = { Kept };

    ghost coded = { Prim.hlevel (codes, message_code, cell_code) };

    ghost view = { λ p. record {
      slice = slices.cell p.app (Some record { place = p.place; cell = p.cell });
      log = p.log;
    } };
}

impl CellPart {
    /// At its first instruction, waiting for nothing.
    pub fn new(alloc: Global, app: u16) -> CellPart
        ensures slice { result.slice ≡ cell app (Some opening_app) }
        ensures log { IsUnwritten result.log }
    {
        CellPart {
            app,
            place: Place { step: 0, part: 0 },
            cell: Cell::new(),
            log: Log::new(alloc),
        }
    }

    /// Where the application is in its program.
    pub fn place(&self) -> Place
        ensures { option_map (λ app. app.place) (app_in self.now.slice) ≡ Some result }
    {
        self.place
    }

    /// The cell in which it finds its reply.
    pub fn cell(&self) -> &Cell
        ensures { option_map (λ app. app.cell) (app_in self.now.slice) ≡ Some result.now }
    {
        &self.cell
    }

    /// Goes on to a place of its program.
    pub fn go_to(&mut self, place: Place)
        ensures slice { self.new.slice ≡ app_at place self.old.slice }
        ensures log { self.new.log ≡ self.old.log }
    {
        self.place = place;
    }

    /// Waits for the reply to what it sent: `BMessenger::SendMessage`.
    pub fn wait(&mut self)
        requires { is_waiting self.old.slice ≡ false }
        ensures slice { self.new.slice ≡ app_told (λ _. waiting) self.old.slice }
        ensures log { self.new.log ≡ self.old.log }
    {
        self.cell.wait();
    }

    /// Takes the reply that is there.
    pub fn claim(&mut self) -> Option<Message>
        ensures reply { result ≡ reply_there self.old.slice }
        ensures slice { self.new.slice ≡ app_told claimed self.old.slice }
        ensures log { self.new.log ≡ self.old.log }
    {
        self.cell.claim()
    }

    /// Gets a reply, which is kept where it waits for one and has none.
    pub fn tell(&mut self, message: Message)
        ensures slice { self.new.slice ≡ app_told (with_reply message) self.old.slice }
        ensures log { self.new.log ≡ self.old.log }
    {
        let _refused = self.cell.put(message);
    }
}

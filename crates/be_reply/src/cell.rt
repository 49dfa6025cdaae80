ghost use Rattle.std.specs.Prelude.{◌≡◌, ◌↔◌, false, option_copied, IsOk, IfErr};
ghost use Rattle.be_reply.specs.Cells.{idle, waiting, waits, reply_in, with_reply, claimed};

use crate::fault::PutFault;
use crate::stage::Stage;
use be_message::Message;
use std::marker::Model;
use std::mem;

/// Where an application that sends a message and waits (`BMessenger::SendMessage`) finds the reply.
#[derive(Debug, Drop)]
pub struct Cell {
    stage: Stage,
}

impl Model for Cell {
    ghost use Rattle.be_reply.specs.Cells as cells;
    ghost use Rattle.be_reply.specs.Codes.{cell_code};

    ghost Value = { cells.Cell };

    ghost coded = { cell_code };

    ghost use Rattle.be_reply.specs.Stages.{seen};

    ghost view = { λ c. seen c.stage };
}

impl Cell {
    /// The cell of an application that doesn't wait.
    pub fn new() -> Cell
        ensures { result ≡ idle }
    {
        Cell { stage: Stage::Idle }
    }

    /// The application sent a message and waits for the reply.
    pub fn wait(&mut self)
        requires { waits self.old ≡ false }
        ensures { self.new ≡ waiting }
    {
        self.stage = Stage::Waiting;
    }

    /// Whether the application waits, its reply claimed not yet.
    pub fn waiting(&self) -> bool
        ensures { result ≡ waits self.now }
    {
        match self.stage {
            Stage::Idle => false,
            Stage::Waiting | Stage::Replied(_) => true,
        }
    }

    /// Hands the application its reply: `BMessage::SendReply`.
    pub fn put(&mut self, message: Message) -> Result<(), PutFault>
        ensures ok { IsOk result ↔ (self.old ≡ waiting) }
        ensures after { self.new ≡ with_reply message self.old }
        ensures back { IfErr result (λ fault. fault ≡ PutFault.NotWaiting message) }
    {
        match self.stage {
            Stage::Waiting => {
                self.stage = Stage::Replied(message);
                Ok(())
            }
            Stage::Idle | Stage::Replied(_) => Err(PutFault::NotWaiting(message)),
        }
    }

    /// The application takes its reply and goes on. None where no reply is there.
    pub fn claim(&mut self) -> Option<Message>
        ensures reply { result ≡ reply_in self.old }
        ensures after { self.new ≡ claimed self.old }
    {
        match mem::replace(&mut self.stage, Stage::Idle) {
            Stage::Replied(reply) => Some(reply),
            before => {
                self.stage = before;
                None
            }
        }
    }

    /// The reply that is there, if one is.
    pub fn peek(&self) -> Option<&Message>
        ensures { option_copied result ≡ reply_in self.now }
    {
        match &self.stage {
            Stage::Idle | Stage::Waiting => None,
            Stage::Replied(message) => Some(message),
        }
    }
}

ghost use Rattle.std.specs.Prelude.{◌≡◌, ◌↔◌, None, Some, true, option_map, option_copied, is_some};
ghost use Rattle.std.specs.Prelude.{IsOk, IsErr, IfOk, IfErr, OnOk, OnErr};
ghost use Rattle.std.specs.Borrow.{Lends, sem};
ghost use Rattle.be_link.specs.contracts.buffer.Buffer as buffers;
ghost use Rattle.be_looper.specs.contracts.looper.Looper.{the_row};
ghost use Rattle.be_looper.specs.declared.Owner.TheVariants as owners;
ghost use Rattle.be_looper.specs.Duties.{duty_handed_on, duty_after_reply, duty_after_forward};
ghost use Rattle.be_looper.specs.Loopers.{free_looper, locked_by, with_hand, freed, duty_of};
ghost use Rattle.be_looper.specs.Loopers.{with_duty, replied};

use crate::Owner;
use crate::fault::{BeginFault, Held, NoMessage, NotOwner, ReplyFault};
use crate::holder::{Handled, Holder};
use be_geom::NoMemory;
use be_handler::Route;
use be_link::Buffer;
use be_message::Message;
use be_port::{Duty, Letter};
use std::alloc::Global;
use std::marker::Model;

/// What a window's looper is doing: `BLooper`.
#[derive(Debug, Drop)]
pub struct Looper {
    holder: Holder,
    buffer: Buffer,
}

impl Model for Looper {
    ghost use Rattle.std.specs.Coded.{codes};
    ghost use Rattle.be_message.specs.Codes.{message_code};
    ghost use Rattle.be_looper.specs.Loopers as loopers;
    ghost use Rattle.be_looper.specs.Holders.{owner_of, hand_of};

    ghost Value = { loopers.Looper };

    ghost coded = { Prim.hlevel (codes, message_code) };

    ghost view = { λ l. record {
      owner = owner_of l.holder;
      hand = hand_of l.holder;
      buffer = l.buffer;
    } };
}

impl Looper {
    /// The free looper of a window that made no command.
    pub fn new(alloc: Global) -> Result<Looper, NoMemory>
        ensures { IfOk result (λ looper. looper ≡ free_looper) }
    {
        Ok(Looper {
            holder: Holder::Nobody,
            buffer: Buffer::new(alloc)?,
        })
    }

    /// Who has the looper locked.
    pub fn owner(&self) -> Owner
        ensures owner { result ≡ self.now.owner }
        ensures own { (result ≡ owners.Own) ↔ (is_some self.now.hand ≡ true) }
    {
        match self.holder {
            Holder::Nobody => Owner::Free,
            Holder::App(app) => Owner::App(app),
            Holder::Itself(_) => Owner::Own,
        }
    }

    /// Makes an application the owner of a free looper: `BLooper::Lock`, which never waits here.
    pub fn lock(&mut self, app: u16) -> Result<(), Held>
        ensures ok { IsOk result ↔ (self.old.owner ≡ owners.Free) }
        ensures locked { OnOk result (self.new ≡ locked_by app self.old) }
        ensures err { OnErr result (self.new ≡ self.old) }
        ensures held { IfErr result (λ held. held.owner ≡ self.old.owner) }
    {
        match self.owner() {
            Owner::Free => {
                self.holder = Holder::App(app);
                Ok(())
            }
            owner => Err(Held { owner }),
        }
    }

    /// Lets go of the looper that the application owns: `BLooper::Unlock`.
    pub fn unlock(&mut self, app: u16) -> Result<(), NotOwner>
        ensures ok { IsOk result ↔ (self.old.owner ≡ owners.App app) }
        ensures freed { OnOk result (self.new ≡ freed self.old) }
        ensures err { OnErr result (self.new ≡ self.old) }
    {
        if self.owner() != Owner::App(app) {
            return Err(NotOwner);
        }
        self.holder = Holder::Nobody;
        Ok(())
    }

    /// Takes a letter into a free looper's hand: the begin of `BLooper::DispatchMessage`. The
    /// message is the one that the letter's bytes spell, and the route is its own.
    pub fn begin(
        &mut self,
        letter: Letter,
        message: Message,
        route: Route,
    ) -> Result<(), BeginFault>
        ensures ok { IsOk result ↔ (self.old.owner ≡ owners.Free) }
        ensures begun { OnOk result (self.new ≡ with_hand letter message route self.old) }
        ensures err { OnErr result (self.new ≡ self.old) }
        ensures back { IfErr result (λ fault. fault
            ≡ BeginFault.Held self.old.owner letter message route) }
    {
        match self.owner() {
            Owner::Free => {
                self.holder = Holder::Itself(Handled {
                    letter,
                    message,
                    route,
                });
                Ok(())
            }
            owner => Err(BeginFault::Held {
                owner,
                letter,
                message,
                route,
            }),
        }
    }

    /// Ends the message in hand, and gives what is left of its duty.
    pub fn end(&mut self) -> Result<Duty, NotOwner>
        ensures refused { IsErr result ↔ (self.old.hand ≡ None) }
        ensures duty { IfOk result (λ duty. duty_of self.old ≡ Some duty) }
        ensures freed { OnOk result (self.new ≡ freed self.old) }
        ensures err { OnErr result (self.new ≡ self.old) }
    {
        let duty = self.letter().ok_or(NotOwner)?.duty;
        self.holder = Holder::Nobody;
        Ok(duty)
    }

    /// Gives the application that gets the reply to the message in hand: `BMessage::SendReply`.
    pub fn reply(&mut self) -> Result<u16, ReplyFault>
        ensures answer { result ≡ replied (duty_of self.old) }
        ensures after { self.new ≡ with_duty duty_after_reply self.old }
    {
        match &mut self.holder {
            Holder::Nobody | Holder::App(_) => Err(ReplyFault::NoMessage),
            Holder::Itself(handled) => match handled.letter.duty {
                Duty::Free => Err(ReplyFault::NoReplyWanted),
                Duty::Done => Err(ReplyFault::DuplicateReply),
                Duty::Owed(app) => {
                    handled.letter.duty = Duty::Done;
                    Ok(app)
                }
            },
        }
    }

    /// Gives the duty that goes with the message in hand where it is forwarded:
    /// `BLooper::DetachCurrentMessage`. It isn't left here.
    pub fn detach(&mut self) -> Result<Duty, NoMessage>
        ensures refused { IsErr result ↔ (self.old.hand ≡ None) }
        ensures duty { IfOk result
            (λ duty. option_map duty_handed_on (duty_of self.old) ≡ Some duty) }
        ensures after { self.new ≡ with_duty duty_after_forward self.old }
    {
        match &mut self.holder {
            Holder::Nobody | Holder::App(_) => Err(NoMessage),
            Holder::Itself(handled) => match handled.letter.duty {
                Duty::Free | Duty::Done => Ok(Duty::Free),
                Duty::Owed(app) => {
                    handled.letter.duty = Duty::Free;
                    Ok(Duty::Owed(app))
                }
            },
        }
    }

    /// The letter in hand, with what is left of its duty. None where no message is handled.
    pub fn letter(&self) -> Option<&Letter>
        ensures { option_copied result ≡ option_map (λ hand. hand.letter) self.now.hand }
    {
        match &self.holder {
            Holder::Nobody | Holder::App(_) => None,
            Holder::Itself(handled) => Some(&handled.letter),
        }
    }

    /// The message in hand: `BLooper::CurrentMessage`.
    pub fn message(&self) -> Option<&Message>
        ensures { option_copied result ≡ option_map (λ hand. hand.message) self.now.hand }
    {
        match &self.holder {
            Holder::Nobody | Holder::App(_) => None,
            Holder::Itself(handled) => Some(&handled.message),
        }
    }

    /// Where the message in hand goes.
    pub fn route(&self) -> Option<Route>
        ensures { result ≡ option_map (λ hand. hand.route) self.now.hand }
    {
        match &self.holder {
            Holder::Nobody | Holder::App(_) => None,
            Holder::Itself(handled) => Some(handled.route),
        }
    }

    /// The window's commands that weren't flushed, to be changed.
    pub fn buffer(&mut self) -> &mut Buffer
        ensures* writes_back { sem 𝓛 (Lends the_row buffers.the_row self.entry result
            (λ buffer. record self.old { buffer = buffer })) }
        ensures value { result.now ≡ self.old.buffer }
    {
        &mut self.buffer
    }

    /// The window's commands that weren't flushed.
    pub fn commands(&self) -> &Buffer
        ensures { result.now ≡ self.now.buffer }
    {
        &self.buffer
    }
}

ghost use Rattle.std.specs.Prelude.{◌≡◌, ◌<◌, ◌≤◌, ◌-◌, ◌^◌, [], Some, true, false, is_some};
ghost use Rattle.std.specs.Prelude.{length, map};
ghost use Rattle.std.specs.Prelude.{option_copied, option_map, IfOk, IfSome};
ghost use Rattle.be_actor.specs.Wishes.{first_place};
ghost use Rattle.be_link.specs.Queues.{empty_buffer, is_full, numbered, with_command};
ghost use Rattle.be_link.specs.Queues.{without_oldest};
ghost use Rattle.be_looper.specs.Duties.{duty_after_forward, duty_after_reply};
ghost use Rattle.be_looper.specs.Loopers.{replied};
ghost use Rattle.be_machine.specs.Looper.{with_duty_by};
ghost use Rattle.be_machine.specs.State.{ending, free, in_update, locked};
ghost use Rattle.be_machine.specs.Update.{at_stage};
ghost use Rattle.be_parts.specs.Kept.{IsUnwritten};
ghost use Rattle.be_parts.specs.Effects.{buffer_with, looper_with};
ghost use Rattle.be_parts.specs.Loopers.{at_place, begun_with, buffer_of, duty_in, hand_of};
ghost use Rattle.be_parts.specs.Loopers.{oldest_of, owner_of, stage_in};
ghost use Rattle.be_parts.specs.Holding.{HasFewViews};
ghost use Rattle.be_parts.specs.Stages.{stage_of};
ghost use Rattle.be_rules.specs.Slices.{buffer_in, looper, looper_in};

use crate::log::Log;
use crate::stage::Stage;
use be_actor::Place;
use be_command::Command;
use be_geom::{NoMemory, Rect};
use be_handler::Route;
use be_link::Buffer;
use be_looper::{Looper, Owner, ReplyFault};
use be_message::Message;
use be_port::{Duty, Letter};
use std::alloc::Global;
use std::marker::Model;

/// The looper of a window: who has it, how far it is with the message in its hand, and the window's
/// commands that weren't flushed.
#[derive(Drop)]
pub struct LooperPart {
    window: u16,
    looper: Looper,
    // None where no message is in hand.
    handling: Option<Handling>,
    pub(crate) log: Log,
}

// With a message in hand.
#[derive(Drop)]
struct Handling {
    // Whether somebody waited for a reply when the letter was taken.
    came: Duty,
    stage: Stage,
}

impl Model for LooperPart {
    ghost use Rattle.std.specs.Prelude.{Some};
    ghost use Rattle.std.specs.Coded.{codes};
    ghost use Rattle.be_message.specs.Codes.{message_code};
    ghost use Rattle.be_reply.specs.Codes.{cell_code};
    ghost use Rattle.be_parts.specs.Kept.{Kept};
    ghost use Rattle.be_parts.specs.Holding.{IsHeldWell, holder_of};
    ghost use Rattle.be_rules.specs.Slices as slices;

    ghost Value = { Kept };

    ghost coded = { Prim.hlevel (codes, message_code, cell_code) };

    ghost view = { λ p. record {
      slice = slices.looper p.window (Some (holder_of p.looper p.handling)) (Some p.looper.buffer);
      log = p.log;
    } };

    ghost invariant = { λ p. IsHeldWell p.looper p.handling };
}

impl LooperPart {
    /// The free looper of a window that made no command.
    pub fn new(alloc: Global, window: u16) -> Result<LooperPart, NoMemory>
        ensures slice { IfOk result (λ part. part.slice
            ≡ looper window (Some free) (Some empty_buffer)) }
        ensures log { IfOk result (λ part. IsUnwritten part.log) }
    {
        Ok(LooperPart {
            window,
            looper: Looper::new(alloc)?,
            handling: None,
            log: Log::new(alloc),
        })
    }

    /// Who has the looper.
    pub fn owner(&self) -> Owner
        ensures { Some result ≡ owner_of self.now.slice }
    {
        self.looper.owner()
    }

    /// The letter in hand, with what is left of its duty; its bytes spell the message in hand.
    pub fn letter(&self) -> Option<&Letter>
        ensures hop { option_map (λ letter. letter.now.hop) result
            ≡ option_map (λ hand. hand.letter.hop) (hand_of self.now.slice) }
        ensures duty { option_map (λ letter. letter.now.duty) result ≡ duty_in self.now.slice }
        ensures notice { option_map (λ letter. letter.now.notice) result
            ≡ option_map (λ hand. hand.letter.notice) (hand_of self.now.slice) }
    {
        self.looper.letter()
    }

    /// The message in hand: `BLooper::CurrentMessage`.
    pub fn message(&self) -> Option<&Message>
        ensures { option_copied result
            ≡ option_map (λ hand. hand.letter.body) (hand_of self.now.slice) }
    {
        self.looper.message()
    }

    /// Where the message in hand goes.
    pub fn route(&self) -> Option<Route>
        ensures { result ≡ option_map (λ hand. hand.route) (hand_of self.now.slice) }
    {
        self.looper.route()
    }

    /// How far it is with the message in hand.
    pub fn stage(&self) -> Option<&Stage>
        ensures stage { option_map (λ stage. stage_of stage.now) result
            ≡ stage_in self.now.slice }
        ensures few { IfSome result (λ stage. HasFewViews stage.now) }
    {
        match &self.handling {
            None => None,
            Some(handling) => Some(&handling.stage),
        }
    }

    /// The window's commands that weren't flushed.
    pub fn buffer(&self) -> &Buffer
        ensures { buffer_in self.now.slice ≡ Some result.now }
    {
        self.looper.commands()
    }

    /// An application gets the free looper: `BLooper::Lock`.
    pub fn lock(&mut self, app: u16)
        requires { looper_in self.old.slice ≡ Some free }
        ensures slice { self.new.slice ≡ looper_with (λ _. locked app) self.old.slice }
        ensures log { self.new.log ≡ self.old.log }
    {
        let _held = self.looper.lock(app);
    }

    /// The application that has the looper lets go of it: `BLooper::Unlock`.
    pub fn unlock(&mut self, app: u16)
        requires { looper_in self.old.slice ≡ Some (locked app) }
        ensures slice { self.new.slice ≡ looper_with (λ _. free) self.old.slice }
        ensures log { self.new.log ≡ self.old.log }
    {
        let _refused = self.looper.unlock(app);
    }

    /// Puts a command behind those in the buffer.
    pub fn put(&mut self, command: Command)
        requires room { is_full (buffer_of self.old.slice) ≡ false }
        requires number { (buffer_of self.old.slice).made < 2 ^ 64 - 1 }
        ensures slice { self.new.slice ≡ buffer_with (with_command command) self.old.slice }
        ensures log { self.new.log ≡ self.old.log }
    {
        let _full = self.looper.buffer().put(command);
    }

    /// Takes the oldest command out of the buffer, with its number, on its way to the link.
    pub fn pop(&mut self) -> Option<(u64, Command)>
        ensures command { option_map numbered result ≡ oldest_of self.old.slice }
        ensures slice { self.new.slice ≡ buffer_with without_oldest self.old.slice }
        ensures log { self.new.log ≡ self.old.log }
    {
        self.looper.buffer().pop()
    }

    /// Takes a letter into the free looper's hand, with the message that its bytes spell and the
    /// message's route: the begin of `BLooper::DispatchMessage`.
    pub fn begin(&mut self, letter: Letter, message: Message, route: Route)
        requires { looper_in self.old.slice ≡ Some free }
        ensures slice { self.new.slice
            ≡ looper_with (begun_with letter message route) self.old.slice }
        ensures log { self.new.log ≡ self.old.log }
    {
        let stage = if letter.notice {
            Stage::Beginning
        } else {
            Stage::InBody(Place { step: 0, part: 0 })
        };
        self.handling = Some(Handling {
            came: letter.duty,
            stage,
        });
        let _held = self.looper.begin(letter, message, route);
    }

    /// Gives the application that gets the reply to the message in hand: `BMessage::SendReply`.
    pub fn reply(&mut self) -> Result<u16, ReplyFault>
        ensures answer { result ≡ replied (duty_in self.old.slice) }
        ensures slice { self.new.slice
            ≡ looper_with (with_duty_by duty_after_reply) self.old.slice }
        ensures log { self.new.log ≡ self.old.log }
    {
        self.looper.reply()
    }

    /// The message in hand was forwarded, and its duty with it: `BLooper::DetachCurrentMessage`.
    /// Without a message nothing changes.
    pub fn detach(&mut self)
        ensures slice { self.new.slice
            ≡ looper_with (with_duty_by duty_after_forward) self.old.slice }
        ensures log { self.new.log ≡ self.old.log }
    {
        let _duty = self.looper.detach();
    }

    /// Ends the message in hand: the looper is free.
    pub fn end(&mut self)
        requires { is_some (hand_of self.old.slice) ≡ true }
        ensures slice { self.new.slice ≡ looper_with (λ _. free) self.old.slice }
        ensures log { self.new.log ≡ self.old.log }
    {
        let _duty = self.looper.end();
        self.handling = None;
    }

    /// Goes on to a place of the body or of the Draw bodies that it is in. Without a message
    /// nothing changes.
    pub fn go_to(&mut self, place: Place)
        ensures slice { self.new.slice ≡ looper_with (at_place place) self.old.slice }
        ensures log { self.new.log ≡ self.old.log }
    {
        if let Some(handling) = &mut self.handling {
            handling.stage.go_to(place);
        }
    }

    /// Draws these views now, one after the other. Without a message nothing changes.
    pub fn draw(&mut self, views: Vec<(u16, Rect)>)
        requires few { length views.items ≤ 32 }
        ensures slice { self.new.slice
            ≡ looper_with (at_stage (in_update (map (λ v. v.0) views.items) first_place))
            self.old.slice }
        ensures log { self.new.log ≡ self.old.log }
    {
        if let Some(handling) = &mut self.handling {
            handling.stage = Stage::InUpdate(views, Place { step: 0, part: 0 });
        }
    }

    /// Only the end of the notice in hand is left. Without a message nothing changes.
    pub fn draw_nothing_more(&mut self)
        ensures slice { self.new.slice ≡ looper_with (at_stage ending) self.old.slice }
        ensures log { self.new.log ≡ self.old.log }
    {
        if let Some(handling) = &mut self.handling {
            handling.stage = Stage::Ending;
        }
    }
}

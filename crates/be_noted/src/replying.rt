//! The reply that reaches who waits for it.
ghost use Rattle.std.specs.Prelude.{IfOk};
ghost use Rattle.be_asking.specs.declared.activity.Activity.TheVariants as who;
ghost use Rattle.be_asking.specs.declared.activity.Runner.TheVariants as by;
ghost use Rattle.be_asking.specs.declared.want.Request.TheVariants as request;
ghost use Rattle.be_asking.specs.declared.want.Want.TheVariants as want;
ghost use Rattle.be_noted.specs.Noted.{IsNoted};
ghost use Rattle.be_parts.specs.Kept.{note_in};
ghost use Rattle.be_script.specs.Script.{declared_by};
ghost use Rattle.be_steps.specs.Steps.{IsAllowed};
ghost use Rattle.be_steps.specs.Waiters.{IsReply};

use crate::text::text_of;
use be_actor::Draft;
use be_asking::{Runner, find_looper};
use be_geom::NoMemory;
use be_hall::Held;
use be_message::Message;
use be_parts::Part;
use be_port::Duty;
use be_script::Script;
use be_written::{Note, Said};
use std::alloc::Global;

/// What window `w`'s looper notes of its reply, where somebody waits for it.
pub(crate) fn note_reply(
    alloc: Global,
    script: &Script,
    held: &Held<Part>,
    w: u16,
    draft: &Draft,
    message: &Message,
) -> Result<Option<Vec<u8>>, NoMemory>
    requires allowed { IsAllowed (declared_by script.now) held.now.parts
        (who.Runner (by.Looper w)) (want.Asks (by.Looper w) (request.Reply draft)) }
    requires message { IsReply (declared_by script.now) held.now.parts w draft.now message.now }
    ensures { IfOk result (λ note. IsNoted (declared_by script.now) held.now.parts
        (who.Runner (by.Looper w)) (note_in note)) }
{
    let _draft = draft;
    let Ok(part) = find_looper(script, held, w) else {
        unreachable!()
    };
    let Some(letter) = part.letter() else {
        return Ok(None);
    };
    match letter.duty {
        Duty::Owed(_) => {
            let note = Note::Replied(Said::Whole(message));
            Ok(Some(text_of(alloc, script, Runner::Looper(w), &note)?))
        }
        Duty::Done => Ok(None),
        Duty::Free => Ok(None),
    }
}

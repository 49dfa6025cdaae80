//! Replies to the message in a looper's hand.
ghost use Rattle.std.specs.Borrow.{Bor};
ghost use Rattle.be_actor.specs.Drafts.{DraftWords};
ghost use Rattle.be_asking.specs.Deeds.{IsAnswer, IsAsked};
ghost use Rattle.be_asking.specs.declared.activity.Activity.TheVariants as who;
ghost use Rattle.be_asking.specs.declared.activity.Runner.TheVariants as by;
ghost use Rattle.be_asking.specs.declared.want.Request.TheVariants as request;
ghost use Rattle.be_asking.specs.declared.want.Want.TheVariants as want;
ghost use Rattle.be_hall.specs.Hands.{meant};
ghost use Rattle.be_parts.specs.Parts.{meaning_of};
ghost use Rattle.be_script.specs.Script.{declared_by};

use crate::deed::{Answer, Deed};
use crate::finding::{find_cell, find_looper};
use be_hall::Held;
use be_machine::{Act, Replied};
use be_parts::Part;
use be_port::Duty;
use be_script::Script;

/// A reply never waits. It goes to who waits for it, whose part is needed too, and is refused where
/// nobody does: `BMessage::SendReply`.
pub fn may_reply<'a>(script: &Script, held: &Held<Part>, number: u32, w: u16) -> Answer<'a>
    requires { (draft : Bor DraftWords) × IsAsked (declared_by script.now) held.now.parts
        number (who.Runner (by.Looper w)) (want.Asks (by.Looper w) (request.Reply draft)) }
    ensures { IsAnswer (declared_by script.now) (meant meaning_of held.now.parts) number result }
{
    let looper = match find_looper(script, held, w) {
        Ok(looper) => looper,
        Err(place) => return Answer::Needs(place),
    };
    let letter = match looper.letter() {
        Some(letter) => letter,
        None => return Answer::NotYet,
    };
    let app = match letter.duty {
        Duty::Owed(app) => app,
        Duty::Done => return Answer::May(Deed::Makes(Act::Reply(Replied::Duplicate))),
        Duty::Free => return Answer::May(Deed::Makes(Act::Reply(Replied::Unwanted))),
    };
    match find_cell(script, held, app) {
        Err(place) => Answer::Needs(place),
        Ok(_) => Answer::May(Deed::Makes(Act::Reply(Replied::Accepted))),
    }
}

//! What a looper wants of its commands at the end of a body and of its drawing.
ghost use Rattle.be_asking.specs.Deeds.{IsAnswer, IsAsked};
ghost use Rattle.be_asking.specs.declared.activity.Activity.TheVariants as who;
ghost use Rattle.be_asking.specs.declared.activity.Runner.TheVariants as by;
ghost use Rattle.be_asking.specs.declared.want.Want.TheVariants as want;
ghost use Rattle.be_hall.specs.Hands.{meant};
ghost use Rattle.be_parts.specs.Parts.{meaning_of};
ghost use Rattle.be_script.specs.Script.{declared_by};

use crate::acts::{drawn, flushed};
use crate::deed::{Answer, Deed};
use crate::finding::{find_link, find_looper};
use be_hall::Held;
use be_parts::Part;
use be_script::Script;

/// A looper whose buffer has to be emptied waits until the link has room for all of it.
pub fn may_flush<'a>(script: &Script, held: &Held<Part>, number: u32, w: u16) -> Answer<'a>
    requires { IsAsked (declared_by script.now) held.now.parts number (who.Runner (by.Looper w))
        (want.Flushes w) }
    ensures { IsAnswer (declared_by script.now) (meant meaning_of held.now.parts) number result }
{
    let looper = match find_looper(script, held, w) {
        Ok(looper) => looper,
        Err(place) => return Answer::Needs(place),
    };
    let link = match find_link(script, held, w) {
        Ok(link) => link,
        Err(place) => return Answer::Needs(place),
    };
    match flushed(looper, link, w) {
        None => Answer::NotYet,
        Some(act) => Answer::May(Deed::Makes(act)),
    }
}

/// The command that ends an update comes behind those in the buffer, where there is room.
pub fn may_end_drawing<'a>(script: &Script, held: &Held<Part>, number: u32, w: u16) -> Answer<'a>
    requires { IsAsked (declared_by script.now) held.now.parts number (who.Runner (by.Looper w))
        (want.DrawsEnd w) }
    ensures { IsAnswer (declared_by script.now) (meant meaning_of held.now.parts) number result }
{
    let looper = match find_looper(script, held, w) {
        Ok(looper) => looper,
        Err(place) => return Answer::Needs(place),
    };
    match drawn(looper, w) {
        None => Answer::NotYet,
        Some(act) => Answer::May(Deed::Makes(act)),
    }
}

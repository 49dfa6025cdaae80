//! Locks, and the reply that an application waits for.
ghost use Rattle.be_asking.specs.Deeds.{IsAnswer, IsAsked};
ghost use Rattle.be_asking.specs.declared.activity.Activity.TheVariants as who;
ghost use Rattle.be_asking.specs.declared.activity.Runner.TheVariants as by;
ghost use Rattle.be_asking.specs.declared.want.Request.TheVariants as request;
ghost use Rattle.be_asking.specs.declared.want.Want.TheVariants as want;
ghost use Rattle.be_hall.specs.Hands.{meant};
ghost use Rattle.be_parts.specs.Parts.{meaning_of};
ghost use Rattle.be_script.specs.Script.{declared_by};

use crate::activity::Runner;
use crate::answered::answered_by;
use crate::deed::{Answer, Deed};
use crate::finding::{find_cell, find_looper};
use be_hall::Held;
use be_looper::Owner;
use be_machine::Act;
use be_parts::Part;
use be_script::Script;

/// Who is at a lock waits while somebody has the looper.
pub fn may_lock<'a>(
    script: &Script,
    held: &Held<Part>,
    number: u32,
    runner: Runner,
    w: u16,
) -> Answer<'a>
    requires { IsAsked (declared_by script.now) held.now.parts number (who.Runner runner)
        (want.Asks runner (request.Lock w)) }
    ensures { IsAnswer (declared_by script.now) (meant meaning_of held.now.parts) number result }
{
    match find_looper(script, held, w) {
        Err(place) => Answer::Needs(place),
        Ok(looper) => match looper.owner() {
            Owner::Free => Answer::May(Deed::Makes(Act::Lock(w))),
            Owner::Own | Owner::App(_) => Answer::NotYet,
        },
    }
}

/// An application that sent a message waits for the reply.
pub fn may_claim<'a>(script: &Script, held: &Held<Part>, number: u32, m: u16) -> Answer<'a>
    requires { IsAsked (declared_by script.now) held.now.parts number (who.Runner (by.App m))
        (want.Asks (by.App m) request.Claim) }
    ensures { IsAnswer (declared_by script.now) (meant meaning_of held.now.parts) number result }
{
    match find_cell(script, held, m) {
        Err(place) => Answer::Needs(place),
        Ok(cell) => match cell.cell().peek() {
            None => Answer::NotYet,
            Some(reply) => Answer::May(Deed::Makes(Act::Claim(answered_by(reply)))),
        },
    }
}

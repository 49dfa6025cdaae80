//! Posts, letters that are taken, and what is told to who waits for a reply.
ghost use Rattle.be_asking.specs.Deeds.{IsAnswer, IsAsked};
ghost use Rattle.be_asking.specs.declared.activity.Activity.TheVariants as who;
ghost use Rattle.be_asking.specs.declared.activity.Runner.TheVariants as by;
ghost use Rattle.be_asking.specs.declared.want.Want.TheVariants as want;
ghost use Rattle.be_hall.specs.Hands.{meant};
ghost use Rattle.be_parts.specs.Parts.{meaning_of};
ghost use Rattle.be_script.specs.Script.{declared_by};

use crate::deed::{Answer, Deed};
use crate::finding::{find_looper, find_port};
use be_hall::Held;
use be_looper::Owner;
use be_machine::Act;
use be_parts::Part;
use be_port::queues_are_ports;
use be_script::Script;

/// A free looper takes the letter at the front of its port.
pub fn may_take<'a>(script: &Script, held: &Held<Part>, number: u32, w: u16) -> Answer<'a>
    requires { IsAsked (declared_by script.now) held.now.parts number (who.Runner (by.Looper w))
        (want.Takes w) }
    ensures { IsAnswer (declared_by script.now) (meant meaning_of held.now.parts) number result }
{
    let looper = match find_looper(script, held, w) {
        Ok(looper) => looper,
        Err(place) => return Answer::Needs(place),
    };
    let port = match find_port(script, held, w) {
        Ok(port) => port,
        Err(place) => return Answer::Needs(place),
    };
    queues_are_ports();
    match looper.owner() {
        Owner::Own | Owner::App(_) => Answer::NotYet,
        Owner::Free => match port.port().front() {
            None => Answer::NotYet,
            Some(letter) => Answer::May(Deed::Makes(Act::Take(letter.number))),
        },
    }
}

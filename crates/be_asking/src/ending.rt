//! The end of the message in a looper's hand.
ghost use Rattle.be_asking.specs.Deeds.{IsAnswer, IsAsked};
ghost use Rattle.be_asking.specs.declared.activity.Activity.TheVariants as who;
ghost use Rattle.be_asking.specs.declared.activity.Runner.TheVariants as by;
ghost use Rattle.be_asking.specs.declared.want.Want.TheVariants as want;
ghost use Rattle.be_hall.specs.Hands.{meant};
ghost use Rattle.be_parts.specs.Parts.{meaning_of};
ghost use Rattle.be_script.specs.Script.{declared_by};

use crate::deed::{Answer, Deed};
use crate::finding::{find_cell, find_looper};
use be_hall::Held;
use be_handler::Route;
use be_machine::{Act, EndAnswer};
use be_parts::Part;
use be_port::Duty;
use be_script::Script;

/// A message ends in one step. Who still waits for a reply is told that none comes, so that
/// application's part is needed too.
pub fn may_end<'a>(script: &Script, held: &Held<Part>, number: u32, w: u16) -> Answer<'a>
    requires { IsAsked (declared_by script.now) held.now.parts number (who.Runner (by.Looper w))
        (want.Ends w) }
    ensures { IsAnswer (declared_by script.now) (meant meaning_of held.now.parts) number result }
{
    let looper = match find_looper(script, held, w) {
        Ok(looper) => looper,
        Err(place) => return Answer::Needs(place),
    };
    let letter = match looper.letter() {
        Some(letter) => letter,
        None => return Answer::NotYet,
    };
    let route = match looper.route() {
        Some(route) => route,
        None => return Answer::NotYet,
    };
    let app = match letter.duty {
        Duty::Owed(app) => app,
        Duty::Done | Duty::Free => return Answer::May(Deed::Makes(Act::End(EndAnswer::Nothing))),
    };
    if let Err(place) = find_cell(script, held, app) {
        return Answer::Needs(place);
    }
    match route {
        Route::Unknown => Answer::May(Deed::Makes(Act::End(EndAnswer::Unknown))),
        Route::Skipped | Route::Handler(_) => {
            Answer::May(Deed::Makes(Act::End(EndAnswer::NoReply)))
        }
    }
}

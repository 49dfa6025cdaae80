//! What the input does next.
ghost use Rattle.std.specs.Prelude.{IfOk};
ghost use Rattle.be_asking.specs.Deeds.{IsAnswer, IsAsked};
ghost use Rattle.be_asking.specs.Using.{IsNextAfter, IsNextEvent};
ghost use Rattle.be_asking.specs.declared.activity.Activity.TheVariants as who;
ghost use Rattle.be_asking.specs.declared.want.Want.TheVariants as want;
ghost use Rattle.be_hall.specs.Hands.{meant};
ghost use Rattle.be_parts.specs.Parts.{meaning_of};
ghost use Rattle.be_script.specs.Script.{declared_by};

use crate::deed::{Answer, Deed};
use crate::delivering::{first_answer, second_answer};
use crate::ended::has_ended;
use crate::finding::{find_desk, find_input};
use crate::stirred::missing_pane;
use be_geom::NoMemory;
use be_hall::Held;
use be_input::{Event, deliver};
use be_machine::Act;
use be_parts::Part;
use be_script::{InputLine, Script};
use std::alloc::Global;

/// An event of mouse or key happens at once, and is answered by the ports of its messages. Where it
/// activates a window, the panes of all windows that own other pixels then are needed too. A line
/// that waits for an application's end is used there.
///
/// It takes the memory of the messages of a delivery, and that of `be_desk::affected`.
pub fn may_use<'a>(
    alloc: Global,
    script: &Script,
    held: &Held<Part>,
    number: u32,
    line: &'a InputLine,
) -> Result<Answer<'a>, NoMemory>
    requires { IsAsked (declared_by script.now) held.now.parts number who.Input (want.Uses line) }
    ensures { IfOk result (IsAnswer (declared_by script.now) (meant meaning_of held.now.parts)
        number) }
{
    let event = match *line {
        InputLine::After(app) => return Ok(may_go_on(script, held, number, app)),
        InputLine::Press(at) => Event::Press(at),
        InputLine::Release(at) => Event::Release(at),
        InputLine::Move(at) => Event::Move(at),
        InputLine::Key(key) => Event::Key(key),
    };
    may_happen(alloc, script, held, number, &event)
}

// A line that waits for the end of an application.
fn may_go_on<'a>(script: &Script, held: &Held<Part>, number: u32, app: u16) -> Answer<'a>
    requires { IsNextAfter (declared_by script.now) held.now.parts number app }
    ensures { IsAnswer (declared_by script.now) (meant meaning_of held.now.parts) number result }
{
    let _asked = number;
    let input = match find_input(script, held) {
        Ok(input) => input,
        Err(place) => return Answer::Needs(place),
    };
    match has_ended(script, held, app) {
        Err(place) => Answer::Needs(place),
        Ok(true) => Answer::May(Deed::Makes(Act::Event(input.used() + 1, None, None))),
        Ok(false) => Answer::NotYet,
    }
}

// An event of mouse or key.
fn may_happen<'a>(
    alloc: Global,
    script: &Script,
    held: &Held<Part>,
    number: u32,
    event: &Event,
) -> Result<Answer<'a>, NoMemory>
    requires { IsNextEvent (declared_by script.now) held.now.parts number event.now }
    ensures { IfOk result (IsAnswer (declared_by script.now) (meant meaning_of held.now.parts)
        number) }
{
    let _asked = number;
    let input = match find_input(script, held) {
        Ok(input) => input,
        Err(place) => return Ok(Answer::Needs(place)),
    };
    let known = match find_desk(script, held) {
        Ok(part) => part.desk(),
        Err(place) => return Ok(Answer::Needs(place)),
    };
    let delivery = deliver(alloc, &known.stack, &known.pointing, event)?;
    let first = match first_answer(script, held, &delivery) {
        Ok(first) => first,
        Err(place) => return Ok(Answer::Needs(place)),
    };
    let second = match second_answer(script, held, &delivery) {
        Ok(second) => second,
        Err(place) => return Ok(Answer::Needs(place)),
    };
    match missing_pane(alloc, script, held, known, delivery.activate)? {
        Some(place) => Ok(Answer::Needs(place)),
        None => {
            let act = Act::Event(input.used() + 1, first, second);
            Ok(Answer::May(Deed::Makes(act)))
        }
    }
}

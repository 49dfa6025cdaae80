//! Whether an activity has a legal act, where all parts are in hand.
ghost use Rattle.std.specs.Prelude.{◌≡◌, true};
ghost use Rattle.be_asking.specs.Deeds.{IsAsked};
ghost use Rattle.be_asking.specs.Having.{AreAllHeld, TellsAct, awaited, is_may};
ghost use Rattle.be_asking.specs.declared.activity.Activity.TheVariants as activity;
ghost use Rattle.be_asking.specs.declared.want.Want.TheVariants as want;
ghost use Rattle.be_hall.specs.Hands.{meant};
ghost use Rattle.be_parts.specs.Parts.{meaning_of};
ghost use Rattle.be_script.specs.Script.{declared_by};

use crate::activity::Activity;
use crate::asking::may_ask;
use crate::commands::{may_end_drawing, may_flush};
use crate::deed::Answer;
use crate::ended::has_ended;
use crate::ending::may_end;
use crate::executing::{Execution, may_execute};
use crate::letters::may_take;
use crate::stopping::may_stop;
use crate::updating::{may_begin, may_notify};
use crate::want::Want;
use be_hall::Held;
use be_parts::Part;
use be_script::{InputLine, Script};

/// Whether an activity has a legal act, where all parts are in hand. It takes no memory: a change
/// of a window is executed whatever comes of it, and so an event of the mouse or a key happens.
pub fn has_any(script: &Script, held: &Held<Part>, number: u32, who: Activity, want: Want) -> bool
    requires asked { IsAsked (declared_by script.now) held.now.parts number who want }
    requires all { AreAllHeld (declared_by script.now) (meant meaning_of held.now.parts) }
    ensures { TellsAct (declared_by script.now) (meant meaning_of held.now.parts) number result }
{
    let _who = who;
    match want {
        Want::Asks(runner, request) => is_may(may_ask(script, held, number, runner, request)),
        Want::Takes(w) => is_may(may_take(script, held, number, w)),
        Want::Begins(w) => is_may(may_begin(script, held, number, w)),
        Want::Flushes(w) => is_may(may_flush(script, held, number, w)),
        Want::DrawsEnd(w) => is_may(may_end_drawing(script, held, number, w)),
        Want::Ends(w) => is_may(may_end(script, held, number, w)),
        Want::Notifies(w) => is_may(may_notify(script, held, number, w)),
        Want::Executes(w) => has_command(script, held, number, w),
        Want::Uses(line) => has_event(script, held, number, line),
        Want::Stops => is_may(may_stop(script, held, number)),
    }
}

// Whether a command waits in the window's link.
fn has_command(script: &Script, held: &Held<Part>, number: u32, w: u16) -> bool
    requires asked { IsAsked (declared_by script.now) held.now.parts number (activity.Twin w)
        (want.Executes w) }
    requires all { AreAllHeld (declared_by script.now) (meant meaning_of held.now.parts) }
    ensures { TellsAct (declared_by script.now) (meant meaning_of held.now.parts) number result }
{
    match may_execute(script, held, number, w) {
        Execution::Answered(answer) => is_may(answer),
        Execution::Changes(_, _) => true,
    }
}

// Whether the input's next line may be used: one that waits for an application's end may not yet,
// where that goes on.
fn has_event(script: &Script, held: &Held<Part>, number: u32, line: &InputLine) -> bool
    requires asked { IsAsked (declared_by script.now) held.now.parts number activity.Input
        (want.Uses line) }
    requires all { AreAllHeld (declared_by script.now) (meant meaning_of held.now.parts) }
    ensures { TellsAct (declared_by script.now) (meant meaning_of held.now.parts) number result }
{
    let _number = number;
    match awaited(line) {
        None => true,
        Some(app) => match has_ended(script, held, app) {
            Ok(ended) => ended,
            Err(_) => false,
        },
    }
}

// The application for whose end a line of the input waits.
fn awaited(line: &InputLine) -> Option<u16>
    ensures { result ≡ awaited line.now }
{
    match line {
        InputLine::After(app) => Some(*app),
        InputLine::Press(_) | InputLine::Release(_) | InputLine::Move(_) | InputLine::Key(_) =>
            None,
    }
}

fn is_may(answer: Answer) -> bool
    ensures { result ≡ is_may answer.entry }
{
    match answer {
        Answer::May(_) => true,
        Answer::NotYet | Answer::Needs(_) => false,
    }
}

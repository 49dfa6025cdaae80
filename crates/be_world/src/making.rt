//! What an entry needs is made.
ghost use Rattle.std.specs.Prelude.{◌≡◌, ℕ, IfOk};
ghost use Rattle.be_asking.specs.Executing.{IsOldest};
ghost use Rattle.be_asking.specs.declared.activity.Activity.TheVariants as who;
ghost use Rattle.be_asking.specs.declared.want.Want.TheVariants as want;
ghost use Rattle.be_ready.specs.Chains.{chains_of};
ghost use Rattle.be_rules.specs.Far.{event_in};
ghost use Rattle.be_script.specs.Script.{declared_by};
ghost use Rattle.be_steps.specs.Steps.{IsAllowed};
ghost use Rattle.be_world.specs.Suits.{IsSuited};

use crate::work::Work;
use be_asking::{Activity, Request, Runner, Want, find_link};
use be_command::Command;
use be_geom::NoMemory;
use be_hall::Held;
use be_handler::Chain;
use be_input::Event;
use be_parts::Part;
use be_ready::{
    Planning, delivered, letter, message_in_front, notice, planned, reply_message, surveyed,
};
use be_script::{InputLine, Script};
use std::alloc::Global;

/// What the activity's entry needs, with all the memory that this takes. The chains are those of
/// the script's windows.
pub(crate) fn make(
    alloc: Global,
    script: &Script,
    chains: &[Chain],
    held: &Held<Part>,
    who: Activity,
    want: Want,
) -> Result<Work, NoMemory>
    requires allowed { IsAllowed (declared_by script.now) held.now.parts who want }
    requires chains { chains.now ≡ chains_of (declared_by script.now) }
    ensures { IfOk result (IsSuited (declared_by script.now) held.now.parts who want.entry) }
{
    let _who = who;
    match want {
        Want::Asks(runner, request) => make_asked(alloc, script, held, runner, request),
        Want::Takes(w) => {
            let (message, route) = message_in_front(alloc, script, chains, held, w)?;
            Ok(Work::Taken(message, route))
        }
        Want::Begins(w) => Ok(Work::Survey(surveyed(alloc, script, held, w)?)),
        Want::Notifies(w) => Ok(Work::Letter(notice(alloc, w)?)),
        Want::Executes(w) => make_command(alloc, script, held, w),
        Want::Uses(line) => make_line(alloc, script, held, line),
        Want::Flushes(_) | Want::DrawsEnd(_) => Ok(Work::Nothing),
        Want::Ends(_) | Want::Stops => Ok(Work::Nothing),
    }
}

fn make_asked(
    alloc: Global,
    script: &Script,
    held: &Held<Part>,
    runner: Runner,
    request: Request,
) -> Result<Work, NoMemory>
    requires { IsAllowed (declared_by script.now) held.now.parts (who.Runner runner)
        (want.Asks runner request) }
    ensures { IfOk result (IsSuited (declared_by script.now) held.now.parts (who.Runner runner)
        (want.Asks runner request.entry)) }
{
    match request {
        Request::Post(..) | Request::Send(..) | Request::Forward(..) => {
            Ok(Work::Letter(letter(alloc, script, held, runner, request)?))
        }
        Request::Reply(draft) => match runner {
            Runner::Looper(w) => Ok(Work::Reply(reply_message(alloc, script, held, w, draft)?)),
            Runner::App(_) => unreachable!(),
        },
        Request::Draw(command) => Ok(Work::Command(command.copy(alloc)?)),
        Request::Note(_) | Request::Claim | Request::Lock(_) | Request::Unlock => {
            Ok(Work::Nothing)
        }
        Request::Flush | Request::SyncDone => Ok(Work::Nothing),
    }
}

// A change of the window is planned, where the desk doesn't refuse it.
fn make_command(alloc: Global, script: &Script, held: &Held<Part>, w: u16) -> Result<Work, NoMemory>
    requires { IsAllowed (declared_by script.now) held.now.parts (who.Twin w) (want.Executes w) }
    ensures { IfOk result (IsSuited (declared_by script.now) held.now.parts (who.Twin w)
        (want.Executes w)) }
{
    match oldest(script, held, w) {
        Command::Change(change) => match planned(alloc, script, held, w, change)? {
            Planning::Planned(plan, places) => Ok(Work::Change(plan, places)),
            Planning::Refused => Ok(Work::Refused),
        },
        _ => Ok(Work::Nothing),
    }
}

// The oldest command in the window's link, which is in hand.
fn oldest<'a>(script: &Script, held: &'a Held<Part>, w: u16) -> &'a Command
    requires { IsAllowed (declared_by script.now) held.now.parts (who.Twin w) (want.Executes w) }
    ensures { (n : ℕ) × IsOldest (declared_by script.now) held.now.parts w n result.now }
{
    let Ok(link) = find_link(script, held, w) else {
        unreachable!()
    };
    let Some((_, command)) = link.link().front() else {
        unreachable!()
    };
    command
}

// What an event of mouse or key delivers. A line that waits for an application's end needs nothing.
fn make_line(
    alloc: Global,
    script: &Script,
    held: &Held<Part>,
    line: &InputLine,
) -> Result<Work, NoMemory>
    requires { IsAllowed (declared_by script.now) held.now.parts who.Input (want.Uses line) }
    ensures { IfOk result (IsSuited (declared_by script.now) held.now.parts who.Input
        (want.Uses line.entry)) }
{
    match event_in(line) {
        None => Ok(Work::Nothing),
        Some(event) => Ok(Work::Event(delivered(alloc, script, held, &event)?)),
    }
}

// The event of mouse or key that a line is.
fn event_in(line: &InputLine) -> Option<Event>
    ensures { result ≡ event_in line.now }
{
    match line {
        InputLine::Press(at) => Some(Event::Press(*at)),
        InputLine::Release(at) => Some(Event::Release(*at)),
        InputLine::Move(at) => Some(Event::Move(*at)),
        InputLine::Key(key) => Some(Event::Key(*key)),
        InputLine::After(_) => None,
    }
}

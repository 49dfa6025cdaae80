//! Letters are posted.
ghost use Rattle.std.specs.Prelude.{◌≡◌, Some};
ghost use Rattle.be_asking.specs.Acts.{post_window};
ghost use Rattle.be_asking.specs.declared.activity.Activity.TheVariants as who;
ghost use Rattle.be_asking.specs.declared.want.Want.TheVariants as want;
ghost use Rattle.be_script.specs.Script.{declared_by};
ghost use Rattle.be_script.specs.Limits.{IsWithinLimits};
ghost use Rattle.be_steps.specs.Going.{HasGoneFrom, HasOwn, handed_on_in, settled_in, waiting_in};
ghost use Rattle.be_steps.specs.Idle.{IsIdle, IsIdleAtSend};
ghost use Rattle.be_steps.specs.Letters.{IsWishedLetter};
ghost use Rattle.be_steps.specs.Steps.{IsAllowed, IsDone};

use crate::going::{go_to, place_past};
use crate::left::left_at;
use crate::there::{own_is_there, port_is_there};
use be_actor::Place;
use be_asking::{Activity, Request, Runner, cell_place, looper_place, port_place};
use be_hall::Held;
use be_machine::laws::a_cell_is_idle_at_a_send;
use be_parts::{Part, cell_to_change, looper_to_change, port_to_change};
use be_port::Letter;
use be_script::Script;
use std::snapshot::Snapshot;

/// A letter is posted to window `w`, a message that is sent or forwarded among them, and the runner
/// goes on. Who sent what the port accepts waits for the reply, and what is forwarded takes its
/// duty along.
pub fn post(
    script: &Script,
    held: &mut Held<Part>,
    runner: Runner,
    request: Request,
    w: u16,
    letter: Letter,
)
    requires allowed { IsAllowed (declared_by script.now) held.old.parts (who.Runner runner)
        (want.Asks runner request) }
    requires window { post_window request ≡ Some w }
    requires letter { IsWishedLetter (declared_by script.now) held.old.parts runner request
        letter }
    ensures { IsDone (declared_by script.now) (who.Runner runner) held.old held.new }
{
    own_is_there(script, held, runner);
    port_is_there(script, held, w);
    a_cell_is_idle_at_a_send();
    let before = Snapshot::of(held);
    let place = port_place(script, w);
    let means = left_at(script, &before, Activity::Runner(runner), place);
    let accepted = port_to_change(held, place).post(letter, means).is_ok();
    let next = place_past(script, held, runner, request, accepted);
    settle(script, held, runner, request, accepted, next);
}

// The runner goes on from its post. Who sent what was accepted waits for the reply, and what was
// forwarded takes its duty along.
fn settle(
    script: &Script,
    held: &mut Held<Part>,
    runner: Runner,
    request: Request,
    accepted: bool,
    place: Place,
)
    requires limits { IsWithinLimits (declared_by script.now) }
    requires own { HasOwn (declared_by script.now) held.old.parts runner }
    requires idle { IsIdleAtSend (declared_by script.now) held.old.parts runner request }
    ensures { HasGoneFrom (declared_by script.now) runner (settled_in request.entry accepted runner)
        place held.old held.new }
{
    match request {
        Request::Send(..) if accepted => wait(script, held, runner, place),
        Request::Forward(..) if accepted => hand_on(script, held, runner, place),
        Request::Post(..) | Request::Send(..) | Request::Forward(..) => {
            go_to(script, held, runner, place)
        }
        Request::Note(_) | Request::Reply(_) | Request::Claim | Request::Lock(_) => {
            go_to(script, held, runner, place)
        }
        Request::Unlock | Request::Flush | Request::SyncDone | Request::Draw(_) => {
            go_to(script, held, runner, place)
        }
    }
}

// An application waits for the reply to what it sent, and goes on.
fn wait(script: &Script, held: &mut Held<Part>, runner: Runner, place: Place)
    requires limits { IsWithinLimits (declared_by script.now) }
    requires own { HasOwn (declared_by script.now) held.old.parts runner }
    requires idle { IsIdle (declared_by script.now) held.old.parts runner }
    ensures { HasGoneFrom (declared_by script.now) runner (waiting_in runner) place held.old
        held.new }
{
    match runner {
        Runner::App(m) => {
            let cell = cell_to_change(held, cell_place(m));
            cell.wait();
            cell.go_to(place);
        }
        Runner::Looper(_) => go_to(script, held, runner, place),
    }
}

// The duty of the letter in a looper's hand goes along with what was forwarded.
fn hand_on(script: &Script, held: &mut Held<Part>, runner: Runner, place: Place)
    requires limits { IsWithinLimits (declared_by script.now) }
    requires own { HasOwn (declared_by script.now) held.old.parts runner }
    ensures { HasGoneFrom (declared_by script.now) runner (handed_on_in runner) place held.old
        held.new }
{
    match runner {
        Runner::App(_) => go_to(script, held, runner, place),
        Runner::Looper(w) => {
            let looper = looper_to_change(held, looper_place(script, w));
            looper.detach();
            looper.go_to(place);
        }
    }
}

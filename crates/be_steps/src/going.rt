//! A runner goes on in its program.
ghost use Rattle.std.specs.Prelude.{◌≡◌, ◌<◌, ◌-◌, ◌^◌, Option, Some, IfSome, length, option_map};
ghost use Rattle.std.specs.Option.{option_map_or};
ghost use Rattle.be_actor.specs.Wishes.{place_after};
ghost use Rattle.be_asking.specs.Wants.{runner_in, wish_in};
ghost use Rattle.be_asking.specs.declared.activity.Runner.TheVariants as by;
ghost use Rattle.be_hall.specs.Hands.{part_at};
ghost use Rattle.be_machine.specs.Touched.{own_part};
ghost use Rattle.be_message.specs.Messages as messages;
ghost use Rattle.be_parts.specs.Kept.{Kept};
ghost use Rattle.be_rules.specs.Places.{IsPart, place_of};
ghost use Rattle.be_script.specs.Limits.{IsWithinLimits};
ghost use Rattle.be_script.specs.Script.{declared_by};
ghost use Rattle.be_steps.specs.Going.{HasGone, HasOwn, IsPast, own_kind};

use be_actor::{Instruction, Place};
use be_asking::{
    Request, Runner, app_steps, body_step, cell_place, looper_place, step_at, update_step,
};
use be_hall::Held;
use be_parts::{
    CellPart, LooperPart, Part, Stage, cell_at, cell_to_change, looper_at, looper_to_change,
};
use be_script::Script;

/// Where a runner is once it was granted what its instruction asks for. What is sent is waited for
/// where it was accepted.
pub(crate) fn place_past(
    script: &Script,
    held: &Held<Part>,
    runner: Runner,
    request: Request,
    accepted: bool,
) -> Place
    requires limits { IsWithinLimits (declared_by script.now) }
    requires there { IsPart (declared_by script.now) (own_part (runner_in runner)) }
    requires own { HasOwn (declared_by script.now) held.now.parts runner }
    ensures { (k : Kept)
        → part_at held.now.parts (place_of (declared_by script.now) (own_part (runner_in runner)))
        ≡ Some (own_kind runner k)
        → (now : Option messages.Message)
        → IsPast (declared_by script.now) runner k.slice accepted (wish_in now request.entry)
        result }
{
    match runner {
        Runner::App(m) => {
            let cell = cell_at(held, cell_place(m));
            app_past(script, cell, m, request, accepted)
        }
        Runner::Looper(w) => {
            let looper = looper_at(held, looper_place(script, w));
            looper_past(script, looper, w, request, accepted)
        }
    }
}

fn app_past(script: &Script, cell: &CellPart, m: u16, request: Request, accepted: bool) -> Place
    requires limits { IsWithinLimits (declared_by script.now) }
    requires there { m < length (declared_by script.now).apps }
    ensures { (now : Option messages.Message)
        → IsPast (declared_by script.now) (by.App m) cell.now.slice accepted
        (wish_in now request.entry) result }
{
    let place = cell.place();
    step_past(
        step_at(app_steps(script, m), place.step),
        place,
        request,
        accepted,
    )
}

// A looper without a message goes nowhere.
fn looper_past(
    script: &Script,
    looper: &LooperPart,
    w: u16,
    request: Request,
    accepted: bool,
) -> Place
    requires limits { IsWithinLimits (declared_by script.now) }
    ensures { (now : Option messages.Message)
        → IsPast (declared_by script.now) (by.Looper w) looper.now.slice accepted
        (wish_in now request.entry) result }
{
    let nowhere = Place { step: 0, part: 0 };
    let (Some(stage), Some(message), Some(route)) = (
        looper.stage(),
        looper.message(),
        looper.route(),
    ) else {
        return nowhere;
    };
    match stage {
        Stage::InBody(place) => {
            let step = body_step(script, w, message.what(), route, place.step);
            step_past(step, *place, request, accepted)
        }
        Stage::InUpdate(views, place) => {
            let step = update_step(script, w, views, place.step);
            step_past(step, *place, request, accepted)
        }
        Stage::Beginning | Stage::Ending => nowhere,
    }
}

// Past the last instruction it stays where it is.
fn step_past(step: Option<&Instruction>, place: Place, request: Request, accepted: bool) -> Place
    requires { IfSome step (λ _. place.step < 2 ^ 32 - 1) }
    ensures { (now : Option messages.Message)
        → result ≡ option_map_or
        (λ at. place_after at.now place accepted (wish_in now request.entry)) step.entry place }
{
    match step {
        Some(at) => instruction_past(at, place, request, accepted),
        None => place,
    }
}

#[tactic(auto, unfolding(be_actor::specs::Wishes::place_after))]
fn instruction_past(at: &Instruction, place: Place, request: Request, accepted: bool) -> Place
    requires { place.step < 2 ^ 32 - 1 }
    ensures { (now : Option messages.Message)
        → result ≡ place_after at.now place accepted (wish_in now request.entry) }
{
    let next = Place {
        step: place.step + 1,
        part: 0,
    };
    let second = Place { part: 1, ..place };
    match request {
        Request::Send(..) if accepted => second,
        Request::Flush => match at {
            Instruction::Flush => next,
            Instruction::Sync => second,
            Instruction::Note(_) | Instruction::Post(..) | Instruction::Send(..) => place,
            Instruction::Reply(_) | Instruction::Forward(..) | Instruction::Lock(_) => place,
            Instruction::Unlock | Instruction::Draw(_) => place,
        },
        Request::Note(_) | Request::Post(..) | Request::Send(..) | Request::Forward(..) => next,
        Request::Reply(_) | Request::Claim | Request::Lock(_) | Request::Unlock => next,
        Request::SyncDone | Request::Draw(_) => next,
    }
}

/// The runner goes on to a place of its program.
pub(crate) fn go_to(script: &Script, held: &mut Held<Part>, runner: Runner, place: Place)
    requires limits { IsWithinLimits (declared_by script.now) }
    requires own { HasOwn (declared_by script.now) held.old.parts runner }
    ensures { HasGone (declared_by script.now) runner place held.old held.new }
{
    match runner {
        Runner::App(m) => cell_to_change(held, cell_place(m)).go_to(place),
        Runner::Looper(w) => looper_to_change(held, looper_place(script, w)).go_to(place),
    }
}

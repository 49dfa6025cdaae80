//! What a looper wants.
ghost use Rattle.std.specs.Prelude.{◌≡◌, Some, Option, length, option_map};
ghost use Rattle.be_asking.specs.Loopers.{IsTold, draw_end_by, end_by};
ghost use Rattle.be_asking.specs.Wants.{IsWanted, want_in};
ghost use Rattle.be_hall.specs.Hands.{meant};
ghost use Rattle.be_hall.specs.Machine.{SomeFits};
ghost use Rattle.be_machine.specs.Activities as machine;
ghost use Rattle.be_machine.specs.Wants.{asks_or};
ghost use Rattle.be_actor.specs.Wishes.{wish_at};
ghost use Rattle.be_message.specs.Messages as messages;
ghost use Rattle.be_parts.specs.Loopers.{buffer_of};
ghost use Rattle.be_parts.specs.Parts.{meaning_of};
ghost use Rattle.be_rules.specs.Rules.{world_machine};
ghost use Rattle.be_rules.specs.Slices.{looper_in};
ghost use Rattle.be_script.specs.Limits.{IsWithinLimits};
ghost use Rattle.be_script.specs.Script.{declared_by};

use crate::activity::Runner;
use crate::places::looper_place;
use crate::programs::{body_step, update_step};
use crate::requests::{MOST_BUFFERED, request};
use crate::want::{Want, Wanted};
use be_actor::Instruction;
use be_hall::Held;
use be_parts::{LooperPart, Part, Stage, looper_in_hand};
use be_script::Script;

/// What the looper of a window wants, by itself and its buffer.
pub(crate) fn wanted_by_looper<'a>(
    script: &'a Script,
    held: &Held<Part>,
    number: u32,
    window: u16,
) -> Wanted<'a>
    requires limits { IsWithinLimits (declared_by script.now) }
    requires number { machine.activity_of (declared_by script.now) number
        ≡ Some (machine.runner (machine.looper window)) }
    requires fitting { SomeFits (world_machine (declared_by script.now))
        (meant meaning_of held.now.parts) }
    ensures { IsWanted (declared_by script.now) (meant meaning_of held.now.parts) number
        (machine.runner (machine.looper window)) result }
{
    let place = looper_place(script, window);
    match looper_in_hand(held, place) {
        Some(looper) => Wanted::Wants(looper_want(script, window, looper)),
        None => Wanted::Needs(place),
    }
}

fn looper_want<'a>(script: &'a Script, window: u16, looper: &LooperPart) -> Want<'a>
    ensures { IsTold (declared_by script.now) window (looper_in looper.now.slice)
        (length (buffer_of looper.now.slice).commands) result }
{
    let buffered = looper.buffer().len();
    let (Some(stage), Some(message), Some(route)) = (
        looper.stage(),
        looper.message(),
        looper.route(),
    ) else {
        return Want::Takes(window);
    };
    match stage {
        Stage::InBody(place) => {
            let step = body_step(script, window, message.what(), route, place.step);
            step_want(
                window,
                step,
                place.part,
                buffered,
                end_want(window, buffered),
            )
        }
        Stage::Beginning => Want::Begins(window),
        Stage::InUpdate(views, place) => {
            let step = update_step(script, window, views, place.step);
            step_want(
                window,
                step,
                place.part,
                buffered,
                draw_end_want(window, buffered),
            )
        }
        Stage::Ending => end_want(window, buffered),
    }
}

// The instruction's request, or what comes at the end.
fn step_want<'a>(
    window: u16,
    step: Option<&'a Instruction>,
    part: u8,
    buffered: u32,
    last: Want<'a>,
) -> Want<'a>
    ensures { (now : Option messages.Message) → want_in now result
        ≡ asks_or (machine.looper window)
        (option_map (wish_at part now buffered) (option_map (λ step. step.now) step.entry))
        (want_in now last.entry) }
{
    match step {
        Some(step) => Want::Asks(Runner::Looper(window), request(step, part, buffered)),
        None => last,
    }
}

// A message ends with an empty buffer.
fn end_want(window: u16, buffered: u32) -> Want<'static>
    ensures { (now : Option messages.Message) → want_in now result ≡ end_by window buffered }
{
    if buffered == 0 {
        Want::Ends(window)
    } else {
        Want::Flushes(window)
    }
}

// The command that ends an update wants room in the buffer.
fn draw_end_want(window: u16, buffered: u32) -> Want<'static>
    ensures { (now : Option messages.Message) → want_in now result ≡ draw_end_by window buffered }
{
    if buffered >= MOST_BUFFERED {
        Want::Flushes(window)
    } else {
        Want::DrawsEnd(window)
    }
}

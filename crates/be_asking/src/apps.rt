//! What an application wants.
ghost use Rattle.std.specs.Prelude.{◌≡◌, ◌<◌, length, Some, IfOk, IfErr, IfSome};
ghost use Rattle.be_asking.specs.Counts.{IsCount, IsLacking};
ghost use Rattle.be_asking.specs.Wants.{IsWanted};
ghost use Rattle.be_hall.specs.Hands.{meant};
ghost use Rattle.be_hall.specs.Machine.{SomeFits};
ghost use Rattle.be_machine.specs.Activities as machine;
ghost use Rattle.be_parts.specs.Parts.{meaning_of};
ghost use Rattle.be_rules.specs.Rules.{world_machine};
ghost use Rattle.be_script.specs.Limits.{IsWithinLimits};
ghost use Rattle.be_script.specs.Script.{declared_by};

use crate::activity::Runner;
use crate::places::{cell_place, looper_place};
use crate::programs::{app_steps, lock_at, step_at};
use crate::requests::{reads_buffer, request};
use crate::want::{Want, Wanted};
use be_hall::Held;
use be_parts::{Part, cell_in_hand, looper_in_hand};
use be_script::Script;

/// What an application wants, by its cell, and by the looper that it has locked where its
/// instruction depends on how full the buffer is.
pub(crate) fn wanted_by_app<'a>(
    script: &'a Script,
    held: &Held<Part>,
    number: u32,
    app: u16,
) -> Wanted<'a>
    requires limits { IsWithinLimits (declared_by script.now) }
    requires number { machine.activity_of (declared_by script.now) number
        ≡ Some (machine.runner (machine.app app)) }
    requires fitting { SomeFits (world_machine (declared_by script.now))
        (meant meaning_of held.now.parts) }
    ensures { IsWanted (declared_by script.now) (meant meaning_of held.now.parts) number
        (machine.runner (machine.app app)) result }
{
    let place = cell_place(app);
    let Some(cell) = cell_in_hand(held, place) else {
        return Wanted::Needs(place);
    };
    let at = cell.place();
    let program = app_steps(script, app);
    let Some(instruction) = step_at(program, at.step) else {
        return Wanted::Nothing;
    };
    if !reads_buffer(instruction) {
        return Wanted::Wants(Want::Asks(Runner::App(app), request(instruction, at.part, 0)));
    }
    match buffered(script, held, lock_at(program, at.step)) {
        Ok(buffered) => {
            Wanted::Wants(Want::Asks(Runner::App(app), request(instruction, at.part, buffered)))
        }
        Err(place) => Wanted::Needs(place),
    }
}

// How many commands are in the buffer of a locked looper. The error is the place of the looper,
// where it isn't in hand.
fn buffered(script: &Script, held: &Held<Part>, lock: Option<u16>) -> Result<u32, u32>
    requires limits { IsWithinLimits (declared_by script.now) }
    requires inside { IfSome lock (λ w. w < length (declared_by script.now).windows) }
    requires fitting { SomeFits (world_machine (declared_by script.now))
        (meant meaning_of held.now.parts) }
    ensures count { IfOk result (IsCount (declared_by script.now) held.now.parts lock) }
    ensures lacks { IfErr result (IsLacking (declared_by script.now) held.now.parts lock) }
{
    let Some(window) = lock else {
        return Ok(0);
    };
    let place = looper_place(script, window);
    match looper_in_hand(held, place) {
        Some(looper) => Ok(looper.buffer().len()),
        None => Err(place),
    }
}

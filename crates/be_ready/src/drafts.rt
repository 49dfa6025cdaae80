//! The messages that instructions make.
ghost use Rattle.std.specs.Prelude.{◌≡◌, ◌<◌, true, is_some, length, option_map, IfOk};
ghost use Rattle.be_actor.specs.Conditions.{draft_of};
ghost use Rattle.be_asking.specs.declared.activity.Runner.TheVariants as by;
ghost use Rattle.be_ready.specs.Letters.{Asks, IsMade, draft_asked, draft_of_app, draft_of_looper};
ghost use Rattle.be_script.specs.Script.{declared_by};

use crate::there::{cell_there, looper_there};
use be_actor::{Draft, Instruction};
use be_asking::{Request, app_steps, body_step, step_at};
use be_geom::NoMemory;
use be_hall::Held;
use be_message::Message;
use be_parts::{CellPart, LooperPart, Part, Stage};
use be_script::Script;
use std::alloc::Global;

/// The message that an application asks for.
pub(crate) fn app_message(
    alloc: Global,
    script: &Script,
    held: &Held<Part>,
    m: u16,
    request: Request,
) -> Result<Message, NoMemory>
    requires asked { Asks (declared_by script.now) held.now.parts (by.App m) request }
    requires makes { is_some (draft_asked request) ≡ true }
    ensures { IfOk result
        (IsMade (declared_by script.now) held.now.parts (by.App m) request.entry) }
{
    let _request = request;
    match app_draft(script, cell_there(script, held, m), m) {
        Some(draft) => draft.filled(alloc, None),
        None => unreachable!(),
    }
}

/// The message that a looper asks for, made beside the one in its hand.
pub(crate) fn looper_message(
    alloc: Global,
    script: &Script,
    held: &Held<Part>,
    w: u16,
    request: Request,
) -> Result<Message, NoMemory>
    requires asked { Asks (declared_by script.now) held.now.parts (by.Looper w) request }
    requires makes { is_some (draft_asked request) ≡ true }
    ensures { IfOk result
        (IsMade (declared_by script.now) held.now.parts (by.Looper w) request.entry) }
{
    let _request = request;
    let looper = looper_there(script, held, w);
    match looper_draft(script, looper, w) {
        Some(draft) => draft.filled(alloc, looper.message()),
        None => unreachable!(),
    }
}

// Of the instruction at which an application is.
fn app_draft<'a>(script: &'a Script, cell: &CellPart, m: u16) -> Option<&'a Draft>
    requires { m < length (declared_by script.now).apps }
    ensures { option_map (λ draft. draft.now) result
        ≡ draft_of_app (declared_by script.now) m cell.now.slice }
{
    let place = cell.place();
    draft_in(step_at(app_steps(script, m), place.step)?)
}

// Of the one at which a looper is. An update makes no message.
fn looper_draft<'a>(script: &'a Script, looper: &LooperPart, w: u16) -> Option<&'a Draft>
    ensures { option_map (λ draft. draft.now) result
        ≡ draft_of_looper (declared_by script.now) w looper.now.slice }
{
    let (Some(stage), Some(message), Some(route)) = (
        looper.stage(),
        looper.message(),
        looper.route(),
    ) else {
        return None;
    };
    match stage {
        Stage::InBody(place) => {
            draft_in(body_step(script, w, message.what(), route, place.step)?)
        }
        Stage::Beginning | Stage::InUpdate(..) | Stage::Ending => None,
    }
}

fn draft_in(instruction: &Instruction) -> Option<&Draft>
    ensures { option_map (λ draft. draft.now) result ≡ draft_of instruction.now }
{
    match instruction {
        Instruction::Post(_, _, draft) | Instruction::Send(_, _, draft) => Some(draft),
        Instruction::Reply(draft) => Some(draft),
        Instruction::Note(_) | Instruction::Forward(..) | Instruction::Lock(_) => None,
        Instruction::Unlock | Instruction::Flush | Instruction::Sync => None,
        Instruction::Draw(_) => None,
    }
}

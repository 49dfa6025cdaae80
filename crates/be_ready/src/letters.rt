//! The letters that instructions post.
ghost use Rattle.std.specs.Prelude.{◌≡◌, true, is_some, IfOk};
ghost use Rattle.be_asking.specs.Acts.{IsSameHop, hop_behind, post_window};
ghost use Rattle.be_asking.specs.declared.activity.Runner.TheVariants as by;
ghost use Rattle.be_looper.specs.Duties.{duty_handed_on};
ghost use Rattle.be_machine.specs.Port as machine;
ghost use Rattle.be_port.specs.StandsFor.{Carries};
ghost use Rattle.be_ready.specs.Letters.{Asks};
ghost use Rattle.be_script.specs.Script.{declared_by};
ghost use Rattle.be_steps.specs.Letters.{IsWishedLetter};

use crate::drafts::{app_message, looper_message};
use crate::there::looper_there;
use be_asking::{Request, Runner};
use be_flat::{Bytes, flatten};
use be_geom::NoMemory;
use be_hall::Held;
use be_message::{Message, Target};
use be_parts::{LooperPart, Part};
use be_port::{Duty, Letter, Sender};
use be_script::Script;
use std::alloc::Global;

/// The letter that a runner posts, sends or forwards: `BMessenger::SendMessage`. It takes memory
/// for the flattened message, and for the message where it is made here. A message is made once and
/// flattened once, in steps for each byte of it and for each pair of its names; a looper's body is
/// looked for among the script's.
pub fn letter(
    alloc: Global,
    script: &Script,
    held: &Held<Part>,
    runner: Runner,
    request: Request,
) -> Result<Letter, NoMemory>
    requires asked { Asks (declared_by script.now) held.now.parts runner request }
    requires posts { is_some (post_window request) ≡ true }
    ensures { IfOk result
        (IsWishedLetter (declared_by script.now) held.now.parts runner request.entry) }
{
    match runner {
        Runner::App(m) => app_letter(alloc, script, held, m, request),
        Runner::Looper(w) => looper_letter(alloc, script, held, w, request),
    }
}

// An application handles no message, so it forwards none.
fn app_letter(
    alloc: Global,
    script: &Script,
    held: &Held<Part>,
    m: u16,
    request: Request,
) -> Result<Letter, NoMemory>
    requires asked { Asks (declared_by script.now) held.now.parts (by.App m) request }
    requires posts { is_some (post_window request) ≡ true }
    ensures { IfOk result
        (IsWishedLetter (declared_by script.now) held.now.parts (by.App m) request.entry) }
{
    let message = app_message(alloc, script, held, m, request)?;
    match request {
        Request::Post(_, target, _) => {
            sealed(alloc, Sender::App(m), target, 0, Duty::Free, &message)
        }
        Request::Send(_, target, _) => {
            sealed(alloc, Sender::App(m), target, 0, Duty::Owed(m), &message)
        }
        Request::Forward(..) => unreachable!(),
        Request::Note(_) | Request::Reply(_) | Request::Claim => unreachable!(),
        Request::Lock(_) | Request::Unlock | Request::Flush => unreachable!(),
        Request::SyncDone | Request::Draw(_) => unreachable!(),
    }
}

// A body waits for no reply, so a looper sends nothing.
fn looper_letter(
    alloc: Global,
    script: &Script,
    held: &Held<Part>,
    w: u16,
    request: Request,
) -> Result<Letter, NoMemory>
    requires asked { Asks (declared_by script.now) held.now.parts (by.Looper w) request }
    requires posts { is_some (post_window request) ≡ true }
    ensures { IfOk result
        (IsWishedLetter (declared_by script.now) held.now.parts (by.Looper w) request.entry) }
{
    let looper = looper_there(script, held, w);
    let hop = hop_behind(looper);
    match request {
        Request::Post(_, target, _) => {
            let message = looper_message(alloc, script, held, w, request)?;
            sealed(alloc, Sender::Looper(w), target, hop, Duty::Free, &message)
        }
        Request::Forward(_, target) => {
            let (Some(letter), Some(message)) = (looper.letter(), looper.message()) else {
                unreachable!()
            };
            let duty = handed_on(letter.duty);
            sealed(alloc, Sender::Looper(w), target, hop, duty, message)
        }
        Request::Send(..) => unreachable!(),
        Request::Note(_) | Request::Reply(_) | Request::Claim => unreachable!(),
        Request::Lock(_) | Request::Unlock | Request::Flush => unreachable!(),
        Request::SyncDone | Request::Draw(_) => unreachable!(),
    }
}

/// A letter with the message flattened. Its number is the port's to set.
pub(crate) fn sealed(
    alloc: Global,
    sender: Sender,
    target: Target,
    hop: u8,
    duty: Duty,
    message: &Message,
) -> Result<Letter, NoMemory>
    ensures { IfOk result (λ l. Carries l (machine.letter sender target hop duty message.now)) }
{
    Ok(Letter {
        number: 0,
        sender,
        target,
        hop,
        duty,
        notice: false,
        bytes: Bytes::from_vec(flatten(alloc, message)?),
    })
}

// The hop of a message that is made while the looper handles the letter in its hand. One of 255 is
// as deep as any beyond.
fn hop_behind(looper: &LooperPart) -> u8
    ensures { IsSameHop result (hop_behind looper.now.slice) }
{
    match looper.letter() {
        None => 0,
        Some(letter) => letter.hop.saturating_add(1),
    }
}

// The duty that goes along with a letter that is forwarded.
fn handed_on(duty: Duty) -> Duty
    ensures { result ≡ duty_handed_on duty }
{
    match duty {
        Duty::Owed(app) => Duty::Owed(app),
        Duty::Free | Duty::Done => Duty::Free,
    }
}

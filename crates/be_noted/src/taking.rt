//! The letter that a looper takes.
ghost use Rattle.std.specs.Prelude.{IfOk};
ghost use Rattle.be_asking.specs.declared.activity.Activity.TheVariants as who;
ghost use Rattle.be_asking.specs.declared.activity.Runner.TheVariants as by;
ghost use Rattle.be_asking.specs.declared.want.Want.TheVariants as want;
ghost use Rattle.be_noted.specs.Noted.{IsNoted};
ghost use Rattle.be_script.specs.Script.{declared_by};
ghost use Rattle.be_steps.specs.Steps.{IsAllowed};
ghost use Rattle.be_steps.specs.Taking.{IsFrontMessage};

use crate::text::text_of;
use be_asking::{Runner, find_port};
use be_geom::NoMemory;
use be_hall::Held;
use be_handler::Route;
use be_message::Message;
use be_parts::Part;
use be_port::queues_are_ports;
use be_script::Script;
use be_written::{Note, Said, Taken};
use std::alloc::Global;

/// What window `w`'s looper notes of the letter that it takes, which carries this message and goes
/// this way.
pub(crate) fn note_take(
    alloc: Global,
    script: &Script,
    held: &Held<Part>,
    w: u16,
    message: &Message,
    route: Route,
) -> Result<Vec<u8>, NoMemory>
    requires allowed { IsAllowed (declared_by script.now) held.now.parts
        (who.Runner (by.Looper w)) (want.Takes w) }
    requires front { IsFrontMessage (declared_by script.now) held.now.parts w message.now route }
    ensures { IfOk result (λ text. IsNoted (declared_by script.now) held.now.parts
        (who.Runner (by.Looper w)) text.items) }
{
    queues_are_ports();
    let Ok(part) = find_port(script, held, w) else {
        unreachable!()
    };
    let letter = part.port().front().unwrap();
    let taken = Taken {
        sender: letter.sender,
        hop: letter.hop,
        target: letter.target,
        route,
        message: Said::Whole(message),
    };
    text_of(
        alloc,
        script,
        Runner::Looper(w),
        &Note::Took(letter.number, taken),
    )
}

//! The message in front of a port, and where it goes.
ghost use Rattle.std.specs.Prelude.{◌≡◌, IfOk, if◌then◌else◌};
ghost use Rattle.be_asking.specs.declared.activity.Activity.TheVariants as who;
ghost use Rattle.be_asking.specs.declared.activity.Runner.TheVariants as by;
ghost use Rattle.be_asking.specs.declared.want.Want.TheVariants as want;
ghost use Rattle.be_flat.specs.Grammar.{Spells};
ghost use Rattle.be_handler.specs.Routes.{route_of};
ghost use Rattle.be_handler.specs.declared.Route.TheVariants.{Handler};
ghost use Rattle.be_message.specs.Messages as messages;
ghost use Rattle.be_message.specs.declared.target.Target.TheVariants.{Window};
ghost use Rattle.be_ready.specs.Chains.{chains_of};
ghost use Rattle.be_script.specs.Script.{declared_by};
ghost use Rattle.be_steps.specs.Steps.{IsAllowed};
ghost use Rattle.be_steps.specs.Taking.{IsFrontMessage};

use crate::there::port_there;
use be_flat::{Bytes, FlatError, unflatten};
use be_geom::NoMemory;
use be_hall::Held;
use be_handler::{Chain, Route};
use be_message::{Message, Target};
use be_parts::Part;
use be_port::{Letter, queues_are_ports};
use be_script::Script;
use std::alloc::Global;

/// The message that the letter in front of window `w`'s port spells, and where it goes by the
/// chain of its window, of those that `chains_of` gives. It takes memory for the message, and steps
/// for each byte of it, for each filter of the window and for each handler on the way.
pub fn message_in_front(
    alloc: Global,
    script: &Script,
    chains: &[Chain],
    held: &Held<Part>,
    w: u16,
) -> Result<(Message, Route), NoMemory>
    requires allowed { IsAllowed (declared_by script.now) held.now.parts (who.Runner (by.Looper w))
        (want.Takes w) }
    requires chains { chains.now ≡ chains_of (declared_by script.now) }
    ensures { IfOk result (λ front.
        IsFrontMessage (declared_by script.now) held.now.parts w front.0 front.1) }
{
    let part = port_there(script, held, w);
    queues_are_ports();
    let letter = part.port().front().unwrap();
    let message = message_of(alloc, &letter.bytes)?;
    let chain = &chains[w as usize];
    let route = way_of(chain, letter, message.what());
    Ok((message, route))
}

/// The message that these bytes spell.
fn message_of(alloc: Global, bytes: &Bytes) -> Result<Message, NoMemory>
    requires { (m : messages.Message) × Spells bytes.now m }
    ensures { IfOk result (λ message. (m : messages.Message) → Spells bytes.now m → message ≡ m) }
{
    match unflatten(alloc, bytes.as_slice()) {
        Ok(message) => Ok(message),
        Err(FlatError::NoMemory) => Err(NoMemory),
        Err(FlatError::Truncated { .. } | FlatError::BadByte { .. } | FlatError::Extra { .. }) => {
            unreachable!()
        }
    }
}

/// Where a letter of this word goes in the window of this chain. No filter sees a notice: the
/// window handles it.
fn way_of(chain: &Chain, letter: &Letter, what: u32) -> Route
    ensures { result ≡ (if letter.now.notice then Handler Window
        else route_of chain.now what letter.now.target) }
{
    if letter.notice {
        return Route::Handler(Target::Window);
    }
    chain.route(what, letter.target)
}

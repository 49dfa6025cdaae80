//! What the ports answer to the messages of the input.
ghost use Rattle.std.specs.Prelude.{◌≡◌, ◌==◌, ◌-◌, ◌^◌, ◌<◌, false, option_map, IfOk, IfErr};
ghost use Rattle.std.specs.Option.{option_map_or};
ghost use Rattle.be_asking.specs.Finding.{IsInHand, IsMissing};
ghost use Rattle.be_asking.specs.Using.{Answers, AnswersBehind, ArePostable, HasNoPort, HasPort};
ghost use Rattle.be_asking.specs.Using.{IsFirst, IsPostable, IsSecond};
ghost use Rattle.be_input.specs.Seen.{seen_delivery};
ghost use Rattle.be_machine.specs.Touched as part;
ghost use Rattle.be_message.specs.Messages.{Message};
ghost use Rattle.be_port.specs.Ports as machine;
ghost use Rattle.be_port.specs.StandsFor.{PortStandsFor};
ghost use Rattle.be_script.specs.Script.{declared_by};

use crate::finding::find_port;
use be_hall::Held;
use be_input::{Delivery, Post};
use be_parts::Part;
use be_port::{Port, Posted, queues_are_ports};
use be_script::Script;

/// What is answered to the first message. The error is the place of its port, where that isn't in
/// hand.
pub(crate) fn first_answer(
    script: &Script,
    held: &Held<Part>,
    delivery: &Delivery,
) -> Result<Option<(u16, Posted)>, u32>
    requires { ArePostable (declared_by script.now) held.now.parts delivery.now.first }
    ensures told { IfOk result (IsFirst (declared_by script.now) held.now.parts
        (seen_delivery delivery.now)) }
    ensures there { IfOk result (λ _. HasPort (declared_by script.now) held.now.parts
        delivery.now.first) }
    ensures missing { IfErr result (HasNoPort (declared_by script.now) held.now.parts
        delivery.now.first) }
{
    match &delivery.first {
        None => Ok(None),
        Some(post) => {
            let answer = answer(script, held, post.window)?;
            Ok(Some((post.window, answer)))
        }
    }
}

/// What is answered to the second message, which comes after the first.
pub(crate) fn second_answer(
    script: &Script,
    held: &Held<Part>,
    delivery: &Delivery,
) -> Result<Option<(u16, Posted)>, u32>
    requires { ArePostable (declared_by script.now) held.now.parts delivery.now.second }
    ensures told { IfOk result (IsSecond (declared_by script.now) held.now.parts
        (seen_delivery delivery.now)) }
    ensures there { IfOk result (λ _. HasPort (declared_by script.now) held.now.parts
        delivery.now.second) }
    ensures missing { IfErr result (HasNoPort (declared_by script.now) held.now.parts
        delivery.now.second) }
{
    match &delivery.second {
        None => Ok(None),
        Some(post) => {
            let answer = if is_to(&delivery.first, post.window) {
                answer_behind(script, held, post.window)?
            } else {
                answer(script, held, post.window)?
            };
            Ok(Some((post.window, answer)))
        }
    }
}

// Whether there is a message, and it goes to this window.
fn is_to(post: &Option<Post>, window: u16) -> bool
    ensures { result ≡ option_map_or (λ p. p.window == window) post.now false }
{
    match post {
        Some(post) => post.window == window,
        None => false,
    }
}

// What the port of a window answers to a message.
fn answer(script: &Script, held: &Held<Part>, window: u16) -> Result<Posted, u32>
    requires { IsPostable (declared_by script.now) held.now.parts window }
    ensures told { IfOk result (Answers (declared_by script.now) held.now.parts window) }
    ensures there { IfOk result (λ _. IsInHand (declared_by script.now) held.now.parts
        (part.port window)) }
    ensures missing { IfErr result (IsMissing (declared_by script.now) held.now.parts
        (part.port window)) }
{
    let port = find_port(script, held, window)?;
    queues_are_ports();
    Ok(port.port().judge(0))
}

// What it answers to one behind another.
fn answer_behind(script: &Script, held: &Held<Part>, window: u16) -> Result<Posted, u32>
    requires { IsPostable (declared_by script.now) held.now.parts window }
    ensures told { IfOk result (AnswersBehind (declared_by script.now) held.now.parts window) }
    ensures there { IfOk result (λ _. IsInHand (declared_by script.now) held.now.parts
        (part.port window)) }
    ensures missing { IfErr result (IsMissing (declared_by script.now) held.now.parts
        (part.port window)) }
{
    let port = find_port(script, held, window)?;
    Ok(judge_behind(port.port()))
}

// It takes a place in the queue, and a number, where the one before it did.
fn judge_behind(port: &Port) -> Posted
    requires { port.now.last < 2 ^ 64 - 2 }
    ensures { (p : machine.Port Message) → PortStandsFor port.now p →
        (letter : machine.Letter Message) → letter.hop ≡ 0 → letter.notice ≡ false →
        result ≡ machine.judged (machine.posted letter p) 0 }
{
    match port.judge(0) {
        Posted::Accepted(number) => {
            let count = port.len() + 1;
            if count >= usize::from(port.capacity()) {
                Posted::WouldBlock(count as u32)
            } else {
                Posted::Accepted(number + 1)
            }
        }
        refused => refused,
    }
}

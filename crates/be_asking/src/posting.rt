//! Notes and posts.
ghost use Rattle.std.specs.Prelude.{◌≡◌, Some, IfOk, IfErr};
ghost use Rattle.be_asking.specs.Acts.{HasHop, IsSameHop, hop_behind, post_window};
ghost use Rattle.be_asking.specs.Deeds.{IsAnswer, IsAsked};
ghost use Rattle.be_asking.specs.Finding.{IsMissing, IsReachable};
ghost use Rattle.be_asking.specs.Wants.{runner_in};
ghost use Rattle.be_asking.specs.declared.activity.Activity.TheVariants as who;
ghost use Rattle.be_asking.specs.declared.want.Request.TheVariants as request;
ghost use Rattle.be_asking.specs.declared.want.Want.TheVariants as want;
ghost use Rattle.be_hall.specs.Hands.{meant};
ghost use Rattle.be_machine.specs.Touched.{own_part};
ghost use Rattle.be_parts.specs.Parts.{meaning_of};
ghost use Rattle.be_script.specs.Script.{declared_by};

use crate::activity::Runner;
use crate::deed::{Answer, Deed};
use crate::finding::{find_looper, find_port};
use crate::want::Request;
use be_hall::Held;
use be_machine::Act;
use be_message::Text;
use be_parts::{LooperPart, Part};
use be_port::queues_are_ports;
use be_script::Script;

/// A note is made at once.
pub fn may_note<'a>(
    script: &Script,
    held: &Held<Part>,
    number: u32,
    runner: Runner,
    text: &'a Text,
) -> Answer<'a>
    requires { IsAsked (declared_by script.now) held.now.parts number (who.Runner runner)
        (want.Asks runner (request.Note text)) }
    ensures { IsAnswer (declared_by script.now) (meant meaning_of held.now.parts) number result }
{
    let _asked = (script.apps.len(), held.get(0).is_some(), number, runner);
    Answer::May(Deed::Notes(text))
}

/// A post to window `w`, a message that is sent or forwarded among them, is made at once, and
/// answered by the window's port.
pub fn may_post<'a>(
    script: &Script,
    held: &Held<Part>,
    number: u32,
    runner: Runner,
    request: Request,
    w: u16,
) -> Answer<'a>
    requires asked { IsAsked (declared_by script.now) held.now.parts number (who.Runner runner)
        (want.Asks runner request) }
    requires window { post_window request ≡ Some w }
    ensures { IsAnswer (declared_by script.now) (meant meaning_of held.now.parts) number result }
{
    let hop = match hop_of(script, held, runner) {
        Ok(hop) => hop,
        Err(place) => return Answer::Needs(place),
    };
    match find_port(script, held, w) {
        Err(place) => Answer::Needs(place),
        Ok(port) => {
            queues_are_ports();
            Answer::May(Deed::Makes(Act::Post(w, port.port().judge(hop))))
        }
    }
}

/// The hop of the messages that a runner makes. The place of its part, where that isn't in hand.
fn hop_of(script: &Script, held: &Held<Part>, runner: Runner) -> Result<u8, u32>
    requires { IsReachable (declared_by script.now) held.now.parts (own_part (runner_in runner)) }
    ensures hop { IfOk result (HasHop (declared_by script.now) held.now.parts runner) }
    ensures missing { IfErr result (IsMissing (declared_by script.now) held.now.parts
        (own_part (runner_in runner))) }
{
    match runner {
        Runner::App(_) => Ok(0),
        Runner::Looper(w) => {
            let looper = find_looper(script, held, w)?;
            Ok(hop_behind(looper))
        }
    }
}

/// The hop of a message that is made while the looper handles the letter in its hand. One of 255 is
/// as deep as any beyond.
fn hop_behind(looper: &LooperPart) -> u8
    ensures { IsSameHop result (hop_behind looper.now.slice) }
{
    match looper.letter() {
        None => 0,
        Some(letter) => letter.hop.saturating_add(1),
    }
}

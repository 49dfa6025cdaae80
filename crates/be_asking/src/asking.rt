//! What an instruction asks for.
ghost use Rattle.std.specs.Prelude.{◌≡◌, true};
ghost use Rattle.be_asking.specs.Acts.{is_own};
ghost use Rattle.be_asking.specs.Deeds.{IsAnswer, IsAsked};
ghost use Rattle.be_asking.specs.declared.activity.Activity.TheVariants as who;
ghost use Rattle.be_asking.specs.declared.want.Want.TheVariants as want;
ghost use Rattle.be_hall.specs.Hands.{meant};
ghost use Rattle.be_parts.specs.Parts.{meaning_of};
ghost use Rattle.be_script.specs.Script.{declared_by};

use crate::activity::Runner;
use crate::deed::Answer;
use crate::locking::{may_claim, may_lock};
use crate::owned::owned_window;
use crate::owning::{may_draw, may_flush_owned, may_sync, may_unlock};
use crate::posting::{may_note, may_post};
use crate::replying::may_reply;
use crate::want::Request;
use be_hall::Held;
use be_parts::Part;
use be_script::Script;

/// Whether a runner may have now what its instruction asks for.
pub fn may_ask<'a>(
    script: &Script,
    held: &Held<Part>,
    number: u32,
    runner: Runner,
    request: Request<'a>,
) -> Answer<'a>
    requires { IsAsked (declared_by script.now) held.now.parts number (who.Runner runner)
        (want.Asks runner request) }
    ensures { IsAnswer (declared_by script.now) (meant meaning_of held.now.parts) number result }
{
    match request {
        Request::Note(text) => may_note(script, held, number, runner, text),
        Request::Post(w, _, _) => may_post(script, held, number, runner, request, w),
        Request::Send(w, _, _) => may_post(script, held, number, runner, request, w),
        Request::Forward(w, _) => may_post(script, held, number, runner, request, w),
        Request::Reply(_) => match runner {
            Runner::App(_) => Answer::NotYet,
            Runner::Looper(w) => may_reply(script, held, number, w),
        },
        Request::Claim => match runner {
            Runner::App(m) => may_claim(script, held, number, m),
            Runner::Looper(_) => Answer::NotYet,
        },
        Request::Lock(w) => may_lock(script, held, number, runner, w),
        Request::Unlock | Request::Flush | Request::SyncDone | Request::Draw(_) => {
            may_own(script, held, number, runner, request)
        }
    }
}

/// The same of what is wanted of the window whose looper the runner owns. Who owns none waits.
fn may_own<'a>(
    script: &Script,
    held: &Held<Part>,
    number: u32,
    runner: Runner,
    request: Request<'a>,
) -> Answer<'a>
    requires asked { IsAsked (declared_by script.now) held.now.parts number (who.Runner runner)
        (want.Asks runner request) }
    requires own { is_own request ≡ true }
    ensures { IsAnswer (declared_by script.now) (meant meaning_of held.now.parts) number result }
{
    let owned = match owned_window(script, held, runner) {
        Ok(owned) => owned,
        Err(place) => return Answer::Needs(place),
    };
    let w = match owned {
        Some(w) => w,
        None => return Answer::NotYet,
    };
    match request {
        Request::Unlock => may_unlock(script, held, number, runner, w),
        Request::Flush => may_flush_owned(script, held, number, runner, w),
        Request::SyncDone => may_sync(script, held, number, runner, w),
        Request::Draw(command) => may_draw(script, held, number, runner, w, command),
        Request::Note(_) | Request::Post(..) | Request::Send(..) | Request::Forward(..) => {
            unreachable!()
        }
        Request::Reply(_) | Request::Claim | Request::Lock(_) => unreachable!(),
    }
}

//! A runner gets what its instruction asks for.
ghost use Rattle.be_asking.specs.declared.activity.Activity.TheVariants as who;
ghost use Rattle.be_asking.specs.declared.want.Want.TheVariants as want;
ghost use Rattle.be_script.specs.Script.{declared_by};
ghost use Rattle.be_steps.specs.Steps.{IsAllowed, IsDone};
ghost use Rattle.be_world.specs.Suits.{IsSuited};

use crate::work::Work;
use be_asking::{Request, Runner};
use be_hall::Held;
use be_parts::Part;
use be_script::Script;
use be_steps::{claim, draw, flush_asked, lock, note, post, reply, sync, unlock};

/// The runner gets what it asks for, and goes on. Loopers alone reply, and applications alone
/// claim, lock and unlock.
pub(crate) fn give(
    script: &Script,
    held: &mut Held<Part>,
    runner: Runner,
    request: Request,
    made: Work,
)
    requires allowed { IsAllowed (declared_by script.now) held.old.parts (who.Runner runner)
        (want.Asks runner request) }
    requires suits { IsSuited (declared_by script.now) held.old.parts (who.Runner runner)
        (want.Asks runner request) made }
    ensures { IsDone (declared_by script.now) (who.Runner runner) held.old held.new }
{
    match request {
        Request::Note(text) => note(script, held, runner, text),
        Request::Post(w, _, _) => post(script, held, runner, request, w, made.into_letter()),
        Request::Send(w, _, _) => post(script, held, runner, request, w, made.into_letter()),
        Request::Forward(w, _) => post(script, held, runner, request, w, made.into_letter()),
        Request::Reply(draft) => match runner {
            Runner::Looper(w) => reply(script, held, w, draft, made.into_reply()),
            Runner::App(_) => unreachable!(),
        },
        Request::Claim => match runner {
            Runner::App(m) => claim(script, held, m),
            Runner::Looper(_) => unreachable!(),
        },
        Request::Lock(w) => match runner {
            Runner::App(m) => lock(script, held, m, w),
            Runner::Looper(_) => unreachable!(),
        },
        Request::Unlock => match runner {
            Runner::App(m) => unlock(script, held, m),
            Runner::Looper(_) => unreachable!(),
        },
        Request::Flush => flush_asked(script, held, runner),
        Request::SyncDone => sync(script, held, runner),
        Request::Draw(command) => draw(script, held, runner, command, made.into_command()),
    }
}

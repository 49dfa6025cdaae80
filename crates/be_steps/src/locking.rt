//! Locks, and the replies that applications wait for.
ghost use Rattle.be_asking.specs.declared.activity.Activity.TheVariants as who;
ghost use Rattle.be_asking.specs.declared.activity.Runner.TheVariants as by;
ghost use Rattle.be_asking.specs.declared.want.Request.TheVariants as request;
ghost use Rattle.be_asking.specs.declared.want.Want.TheVariants as want;
ghost use Rattle.be_script.specs.Script.{declared_by};
ghost use Rattle.be_steps.specs.Steps.{IsAllowed, IsDone};

use crate::going::place_past;
use crate::there::{cell_is_there, looper_is_there};
use be_asking::{Request, Runner, cell_place, looper_place, owned_window};
use be_hall::Held;
use be_parts::{Part, cell_to_change, looper_to_change};
use be_script::Script;

/// The application takes the reply that it waited for.
pub fn claim(script: &Script, held: &mut Held<Part>, m: u16)
    requires { IsAllowed (declared_by script.now) held.old.parts (who.Runner (by.App m))
        (want.Asks (by.App m) request.Claim) }
    ensures { IsDone (declared_by script.now) (who.Runner (by.App m)) held.old held.new }
{
    cell_is_there(script, held, m);
    let place = place_past(script, held, Runner::App(m), Request::Claim, false);
    let cell = cell_to_change(held, cell_place(m));
    let _reply = cell.claim();
    cell.go_to(place);
}

/// The application gets the free looper of window `w`: `BLooper::Lock`.
pub fn lock(script: &Script, held: &mut Held<Part>, m: u16, w: u16)
    requires { IsAllowed (declared_by script.now) held.old.parts (who.Runner (by.App m))
        (want.Asks (by.App m) (request.Lock w)) }
    ensures { IsDone (declared_by script.now) (who.Runner (by.App m)) held.old held.new }
{
    cell_is_there(script, held, m);
    looper_is_there(script, held, w);
    let place = place_past(script, held, Runner::App(m), Request::Lock(w), false);
    looper_to_change(held, looper_place(script, w)).lock(m);
    cell_to_change(held, cell_place(m)).go_to(place);
}

/// The application lets go of the looper that it has: `BLooper::Unlock`.
pub fn unlock(script: &Script, held: &mut Held<Part>, m: u16)
    requires { IsAllowed (declared_by script.now) held.old.parts (who.Runner (by.App m))
        (want.Asks (by.App m) request.Unlock) }
    ensures { IsDone (declared_by script.now) (who.Runner (by.App m)) held.old held.new }
{
    cell_is_there(script, held, m);
    let owned = match owned_window(script, held, Runner::App(m)) {
        Ok(owned) => owned,
        Err(_) => unreachable!(),
    };
    let w = match owned {
        Some(w) => w,
        None => unreachable!(),
    };
    looper_is_there(script, held, w);
    let place = place_past(script, held, Runner::App(m), Request::Unlock, false);
    looper_to_change(held, looper_place(script, w)).unlock(m);
    cell_to_change(held, cell_place(m)).go_to(place);
}

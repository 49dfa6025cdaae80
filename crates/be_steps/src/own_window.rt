//! The window whose looper a runner owns.
ghost use Rattle.std.specs.Prelude.{◌≡◌, Some, true};
ghost use Rattle.be_asking.specs.Acts.{OwnsWindow, is_own};
ghost use Rattle.be_asking.specs.declared.activity.Activity.TheVariants as who;
ghost use Rattle.be_asking.specs.declared.want.Want.TheVariants as want;
ghost use Rattle.be_script.specs.Script.{declared_by};
ghost use Rattle.be_steps.specs.Steps.{IsAllowed};

use be_asking::{Request, Runner, owned_window};
use be_hall::Held;
use be_parts::Part;
use be_script::Script;

/// The window whose looper the runner owns, of which it may have something.
pub(crate) fn own_window(
    script: &Script,
    held: &Held<Part>,
    runner: Runner,
    request: Request,
) -> u16
    requires allowed { IsAllowed (declared_by script.now) held.now.parts (who.Runner runner)
        (want.Asks runner request) }
    requires own { is_own request ≡ true }
    ensures { OwnsWindow (declared_by script.now) held.now.parts runner (Some result) }
{
    let _request = request;
    match owned_window(script, held, runner) {
        Ok(owned) => owned.unwrap(),
        Err(_) => unreachable!(),
    }
}

//! Places: how many there are, which a turn wants at first, and where entries are kept.
ghost use Rattle.std.specs.Prelude.{◌≡◌, Some, length};
ghost use Rattle.be_asking.specs.Wants.{activity_in, runner_in};
ghost use Rattle.be_machine.specs.Activities.{activities};
ghost use Rattle.be_machine.specs.Touched.{own_part};
ghost use Rattle.be_rules.specs.Rules.{kept_at};
ghost use Rattle.be_rules.specs.Places.{place_of};
ghost use Rattle.be_rules.specs.Slices.{all_parts};
ghost use Rattle.be_script.specs.Limits.{IsWithinLimits};
ghost use Rattle.be_script.specs.Script.{declared_by};
ghost use Rattle.be_world.specs.Turns.{is_own};

use be_asking::{
    Activity, Runner, activity_of, cell_place, input_place, link_place, looper_place, pane_place,
};
use be_script::Script;

/// How many parts there are.
pub(crate) fn places(script: &Script) -> u32
    requires { IsWithinLimits (declared_by script.now) }
    ensures { result ≡ length (all_parts (declared_by script.now)) }
{
    2 + script.apps.len() as u32 + 4 * script.windows.len() as u32
}

/// How many activities there are.
pub(crate) fn activities(script: &Script) -> u32
    requires { IsWithinLimits (declared_by script.now) }
    ensures { result ≡ activities (declared_by script.now) }
{
    script.apps.len() as u32 + 2 * script.windows.len() as u32 + 2
}

/// Whether a new turn of the activity wants the part at this place.
pub(crate) fn is_own(script: &Script, number: u32, place: u32) -> bool
    requires { IsWithinLimits (declared_by script.now) }
    ensures { result ≡ is_own (declared_by script.now) number place }
{
    match activity_of(script, number) {
        Some(Activity::Runner(runner)) => place == runner_place(script, runner),
        Some(Activity::Twin(w)) => place == link_place(script, w) || place == pane_place(script, w),
        Some(Activity::Input) => place == input_place(),
        Some(Activity::Closing) => true,
        None => false,
    }
}

fn runner_place(script: &Script, runner: Runner) -> u32
    requires { IsWithinLimits (declared_by script.now) }
    ensures { result ≡ place_of (declared_by script.now) (own_part (runner_in runner)) }
{
    match runner {
        Runner::App(m) => cell_place(m),
        Runner::Looper(w) => looper_place(script, w),
    }
}

/// The place whose log keeps the entries of the activity.
pub(crate) fn keeper(script: &Script, who: Activity) -> u32
    requires { IsWithinLimits (declared_by script.now) }
    ensures { result ≡ kept_at (declared_by script.now) (Some (activity_in who)) }
{
    match who {
        Activity::Runner(runner) => runner_place(script, runner),
        Activity::Twin(w) => pane_place(script, w),
        Activity::Input | Activity::Closing => input_place(),
    }
}

//! Which activities an entry stirs: those that may have a legal entry behind it and had none
//! before, or the other way round.
ghost use Rattle.std.specs.Prelude.{◌≡◌, ◌≤◌, ◌+◌, ◌*◌, true, length};
ghost use Rattle.be_asking.specs.Wants.{activity_in};
ghost use Rattle.be_machine.specs.Activities.{activities};
ghost use Rattle.be_script.specs.Limits.{IsWithinLimits};
ghost use Rattle.be_script.specs.Script.{declared_by};
ghost use Rattle.be_world.specs.Marks.{IsTwin, Marks};
ghost use Rattle.be_world.specs.Stirring.{act_window, is_command, may_stir, may_touch_all};
ghost use Rattle.be_world.specs.Stirring.{own_window};

use crate::marks::{mark_first, mark_one, mark_twins, mark_window};
use be_asking::{Activity, Runner, activity_of};
use be_machine::{Act, Entry};
use be_script::Script;

/// Marks the activities that the entry may stir: every application, the input and the closing
/// activity, and the looper and the twin of the window whose entry it is, or that it names. A
/// command that a twin executed stirs every twin, and an entry of the input everybody.
///
/// It takes a step for each application, and for a command one for each window.
pub(crate) fn mark_stirred(script: &Script, entry: &Entry, marks: &mut [bool])
    requires limits { IsWithinLimits (declared_by script.now) }
    requires long { length marks.old ≡ activities (declared_by script.now) }
    ensures { Marks (λ a. may_stir (declared_by script.now) entry.now a ≡ true) marks.old
        marks.new }
{
    let Some(who) = activity_of(script, entry.actor) else {
        return;
    };
    let apps = script.apps.len();
    let windows = script.windows.len();
    if may_touch_all(who) {
        mark_first(marks, apps + 2 * windows + 2);
        return;
    }
    mark_first(marks, apps);
    mark_one(marks, apps + 2 * windows);
    mark_one(marks, apps + 2 * windows + 1);
    mark_window(marks, apps, own_window(who));
    mark_window(marks, apps, act_window(&entry.act));
    mark_commanded(marks, apps, windows, &entry.act);
}

// A change of a window may alter the pane of any.
fn mark_commanded(marks: &mut [bool], apps: usize, windows: usize, act: &Act)
    requires { apps + 2 * windows ≤ length marks.old }
    ensures { Marks (λ a. (is_command act.now ≡ true) × IsTwin apps windows a) marks.old marks.new }
{
    if is_command(act) {
        mark_twins(marks, apps, windows);
    }
}

// Whose looper or twin it is.
fn own_window(who: Activity) -> Option<u16>
    ensures { result ≡ own_window (activity_in who) }
{
    match who {
        Activity::Runner(Runner::Looper(w)) | Activity::Twin(w) => Some(w),
        Activity::Runner(Runner::App(_)) | Activity::Input | Activity::Closing => None,
    }
}

// The window that an act names.
fn act_window(act: &Act) -> Option<u16>
    ensures { result ≡ act_window act.now }
{
    match act {
        Act::Post(w, _) | Act::Lock(w) | Act::Unlock(w) => Some(*w),
        Act::Draw(w, _) | Act::Flush(w, _) | Act::SyncDone(w) => Some(*w),
        Act::Take(_) | Act::Note(_) | Act::Reply(_) | Act::Claim(_) => None,
        Act::Exec(..) | Act::Notify(_) | Act::Begin(_) | Act::Event(..) => None,
        Act::End(_) | Act::Stop => None,
    }
}

// An event may come to any window, and Stop touches all parts.
fn may_touch_all(who: Activity) -> bool
    ensures { result ≡ may_touch_all (activity_in who) }
{
    match who {
        Activity::Input | Activity::Closing => true,
        Activity::Runner(_) | Activity::Twin(_) => false,
    }
}

// A twin executed a command.
fn is_command(act: &Act) -> bool
    ensures { result ≡ is_command act.now }
{
    match act {
        Act::Exec(..) => true,
        Act::Post(..) | Act::Take(_) | Act::Note(_) | Act::Reply(_) | Act::Claim(_) => false,
        Act::Lock(_) | Act::Unlock(_) | Act::Draw(..) | Act::Flush(..) => false,
        Act::SyncDone(_) | Act::Notify(_) | Act::Begin(_) | Act::Event(..) => false,
        Act::End(_) | Act::Stop => false,
    }
}

//! Notices of updates, and their begin.
ghost use Rattle.std.specs.Prelude.{◌≡◌, Some};
ghost use Rattle.be_asking.specs.declared.activity.Activity.TheVariants as who;
ghost use Rattle.be_asking.specs.declared.activity.Runner.TheVariants as by;
ghost use Rattle.be_asking.specs.declared.want.Want.TheVariants as want;
ghost use Rattle.be_hall.specs.Hands.{part_at};
ghost use Rattle.be_parts.specs.Kept.{Kept};
ghost use Rattle.be_script.specs.Script.{declared_by};
ghost use Rattle.be_steps.specs.Notices.{IsNotice};
ghost use Rattle.be_steps.specs.Steps.{IsAllowed, IsDone};
ghost use Rattle.be_steps.specs.Surveyed.{HasTree, IsSurveyedIn};

use crate::left::left_at;
use crate::shown::pane_is_there;
use crate::there::{looper_is_there, port_is_there};
use be_asking::{Activity, Runner, looper_place, pane_place, port_place};
use be_hall::Held;
use be_machine::laws::{an_owed_notice_is_alone, no_session_is_open_at_a_begin};
use be_parts::{Part, looper_to_change, pane_at, pane_to_change, port_to_change};
use be_port::Letter;
use be_script::Script;
use be_update::{
    Survey, a_pane_is_found_as_its_window, an_update_begins_in_the_window,
    waiting_pixels_are_listed,
};
use std::snapshot::Snapshot;

/// The twin of window `w` posts the notice that it owes, and the pane keeps that it did.
pub fn notify(script: &Script, held: &mut Held<Part>, w: u16, letter: Letter)
    requires allowed { IsAllowed (declared_by script.now) held.old.parts (who.Twin w)
        (want.Notifies w) }
    requires letter { IsNotice w letter }
    ensures { IsDone (declared_by script.now) (who.Twin w) held.old held.new }
{
    port_is_there(script, held, w);
    pane_is_there(script, held, w);
    an_owed_notice_is_alone();
    let before = Snapshot::of(held);
    let port = port_place(script, w);
    let pane = pane_place(script, w);
    let posted = left_at(script, &before, Activity::Twin(w), port);
    let kept = left_at(script, &before, Activity::Twin(w), pane);
    port_to_change(held, port).notice(letter, posted);
    pane_to_change(held, pane).notify(kept);
}

/// The looper of window `w` begins an update as it was surveyed, and draws the views that have
/// pixels which wait. Where none waits, only the end of the notice is left.
pub fn begin(script: &Script, held: &mut Held<Part>, w: u16, survey: Option<Survey>)
    requires allowed { IsAllowed (declared_by script.now) held.old.parts
        (who.Runner (by.Looper w)) (want.Begins w) }
    requires survey { IsSurveyedIn (declared_by script.now) held.old.parts w survey }
    ensures { IsDone (declared_by script.now) (who.Runner (by.Looper w)) held.old held.new }
{
    looper_is_there(script, held, w);
    pane_is_there(script, held, w);
    an_update_begins_in_the_window();
    a_pane_is_found_as_its_window();
    waiting_pixels_are_listed();
    no_session_is_open_at_a_begin();
    let before = Snapshot::of(held);
    let pane = pane_place(script, w);
    let looper = looper_place(script, w);
    let left = left_at(script, &before, Activity::Runner(Runner::Looper(w)), pane);
    views_are_a_tree(held, pane);
    match survey {
        Some(survey) => {
            let views = pane_to_change(held, pane).begin(survey, left);
            looper_to_change(held, looper).draw(views);
        }
        None => {
            pane_to_change(held, pane).pass(left);
            looper_to_change(held, looper).draw_nothing_more();
        }
    }
}

// It does nothing: its contract is what a caller learns.
fn views_are_a_tree(held: &Held<Part>, place: u32)
    requires { (k : Kept) × (part_at held.now.parts place ≡ Some (Part.Pane k)) }
    ensures { HasTree held.now.parts place }
{
    let _views = pane_at(held, place).pane().tree.len();
}

//! The views that an update lists.
ghost use Rattle.std.specs.Prelude.{◌≡◌, IfOk};
ghost use Rattle.be_asking.specs.declared.activity.Activity.TheVariants as who;
ghost use Rattle.be_asking.specs.declared.activity.Runner.TheVariants as by;
ghost use Rattle.be_asking.specs.declared.want.Want.TheVariants as want;
ghost use Rattle.be_noted.specs.Listed.{IsListed};
ghost use Rattle.be_noted.specs.Noted.{IsNoted};
ghost use Rattle.be_parts.specs.Kept.{note_in};
ghost use Rattle.be_script.specs.Script.{declared_by};
ghost use Rattle.be_steps.specs.Steps.{IsAllowed};
ghost use Rattle.be_update.specs.Surveys.{IsSurveyOf};

use crate::text::text_of;
use be_asking::{Runner, find_pane};
use be_geom::{NoMemory, Rect};
use be_hall::Held;
use be_pane::Pane;
use be_parts::Part;
use be_ready::surveyed;
use be_script::Script;
use be_update::{
    Survey, a_pane_is_found_as_its_window, a_survey_is_for_each_pane_of_its_window,
    an_update_begins_in_the_window, begin, waiting_pixels_are_listed,
};
use be_written::Note;
use std::alloc::Global;

/// What window `w`'s looper notes of an update that it begins: the views that it lists.
pub(crate) fn note_listing(
    alloc: Global,
    script: &Script,
    held: &Held<Part>,
    w: u16,
) -> Result<Option<Vec<u8>>, NoMemory>
    requires { IsAllowed (declared_by script.now) held.now.parts (who.Runner (by.Looper w))
        (want.Begins w) }
    ensures { IfOk result (λ note. IsNoted (declared_by script.now) held.now.parts
        (who.Runner (by.Looper w)) (note_in note)) }
{
    let views = listed(alloc, script, held, w)?;
    if views.is_empty() {
        return Ok(None);
    }
    let note = Note::Listed(views.as_slice());
    Ok(Some(text_of(alloc, script, Runner::Looper(w), &note)?))
}

/// The views that an update of window `w` lists. The pixels of the window are looked at once, and
/// copied where one waits.
fn listed(
    alloc: Global,
    script: &Script,
    held: &Held<Part>,
    w: u16,
) -> Result<Vec<(u16, Rect)>, NoMemory>
    requires { IsAllowed (declared_by script.now) held.now.parts (who.Runner (by.Looper w))
        (want.Begins w) }
    ensures { IfOk result (λ views. IsListed (declared_by script.now) held.now.parts w
        views.items) }
{
    waiting_pixels_are_listed();
    a_pane_is_found_as_its_window();
    an_update_begins_in_the_window();
    a_survey_is_for_each_pane_of_its_window();
    let Ok(part) = find_pane(script, held, w) else {
        unreachable!()
    };
    match surveyed(alloc, script, held, w)? {
        Some(survey) => views_in(alloc, part.pane(), survey),
        None => Ok(Vec::new(alloc)),
    }
}

/// The views of a survey of this pane. An update of a copy begins, since none but its begin gives
/// them.
fn views_in(alloc: Global, pane: &Pane, survey: Survey) -> Result<Vec<(u16, Rect)>, NoMemory>
    requires { IsSurveyOf survey pane.now }
    ensures { IfOk result (λ views. views.items ≡ survey.views) }
{
    let spans = pane.spans.part(pane.spans.region())?;
    let tree = pane.tree.copy()?;
    let mut copy = Pane {
        window: pane.window,
        place: pane.place,
        spans,
        tree,
        colors: Vec::new(alloc),
        states: Vec::new(alloc),
        session: None,
        notified: false,
    };
    Ok(begin(&mut copy, survey))
}

ghost use Rattle.std.specs.Prelude.{◌≡◌, None};
ghost use Rattle.be_pane.specs.Owed.{IsClean};
ghost use Rattle.be_update.specs.Surveys.{HasBegun, IsSurveyOf, without_notice};

use crate::found::Survey;
use be_geom::Rect;
use be_pane::Pane;

/// Opens a session of all pixels that waited: `BView::Draw` is due for each view given, with the
/// smallest rectangle round its pixels of the session, in the view's coordinates.
pub fn begin(pane: &mut Pane, survey: Survey) -> Vec<(u16, Rect)>
    requires { IsSurveyOf survey pane.old }
    ensures begun { HasBegun survey pane.old pane.new }
    ensures views { result.items ≡ survey.views }
{
    pane.session = Some(survey.session);
    pane.spans.clear_marks();
    pane.notified = false;
    survey.views
}

/// Takes back the notice of an update where nothing waits any more.
pub fn pass(pane: &mut Pane)
    requires clean { IsClean pane.old.spans }
    requires closed { pane.old.session ≡ None }
    ensures { pane.new ≡ without_notice pane.old }
{
    pane.notified = false;
}

ghost use Rattle.std.specs.Prelude.{◌≡◌, ◌↔◌, IfOk, IsErr, None};
ghost use Rattle.be_pane.specs.Owed.{IsClean};
ghost use Rattle.be_pane.specs.StandsFor.{IsWhole};
ghost use Rattle.be_update.specs.Surveys.{IsSurveyOf};

use crate::dirty::waiting;
use crate::fault::UpdateFault;
use crate::found::Survey;
use crate::listing::listed;
use be_pane::Pane;
use std::alloc::Global;

/// Finds which pixels wait and which views have them.
pub fn survey(alloc: Global, pane: &Pane) -> Result<Survey, UpdateFault>
    requires { IsWhole pane.now }
    ensures open { (result ≡ Err UpdateFault.InSession) ↔ ¬ (pane.now.session ≡ None) }
    ensures clean { (result ≡ Err UpdateFault.NothingDirty)
        ↔ ((pane.now.session ≡ None) × IsClean pane.now.spans) }
    ensures survey { IfOk result (λ survey. IsSurveyOf survey pane.now) }
{
    if pane.session.is_some() {
        return Err(UpdateFault::InSession);
    }
    if pane.spans.is_clean() {
        return Err(UpdateFault::NothingDirty);
    }
    let session = waiting(alloc, pane)?;
    let views = listed(alloc, &pane.tree, &session)?;
    Ok(Survey { session, views })
}

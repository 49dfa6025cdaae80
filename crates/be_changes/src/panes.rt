//! A planned change, pane by pane.
ghost use Rattle.std.specs.Prelude.{◌≡◌, List, Option};
ghost use Rattle.be_asking.specs.declared.want.Want.{Want};
ghost use Rattle.be_changes.specs.Panes.{PanesAreLeft, PanesAreToChange};
ghost use Rattle.be_script.specs.Script.{declared_by};
ghost use Rattle.be_desk.specs.declared.planned.Renewed.{Renewed};
ghost use Rattle.be_steps.specs.Steps.{IsAllowed};

use be_asking::Activity;
use be_desk::Plan;
use be_hall::Held;
use be_parts::{Part, pane_to_change};
use be_script::Script;
use be_steps::left_at;
use std::snapshot::Snapshot;

/// Carries a plan out on the panes at these places, in its order. `before` are the parts with which
/// the activity's step began.
pub(crate) fn change_panes(
    script: &Script,
    held: &mut Held<Part>,
    before: &Snapshot<Held<Part>>,
    who: Activity,
    plan: &mut Plan,
    places: &[u32],
)
    requires allowed { (want : Want)
        × IsAllowed (declared_by script.now) before.now.value.parts who want }
    requires panes { PanesAreToChange (declared_by script.now) before.now.value.parts held.old.parts
        who plan.old places.now }
    ensures panes { PanesAreLeft (declared_by script.now) before.now.value.parts who places.now
        held.old held.new }
    ensures plan { (spans : List (Option Renewed)) × (plan.new ≡ record plan.old { spans = spans }) }
{
    for number in 0..places.len() {
        let place = places[number];
        let next = left_at(script, before, who, place);
        pane_to_change(held, place).change(plan, number, next);
    }
}

//! Plans of changes, with the panes in hand.
ghost use Rattle.std.specs.Prelude.{◌≡◌, ℕ, IfErr, IfOk, map};
ghost use Rattle.std.specs.List.{Contains};
ghost use Rattle.be_desk.specs.Changes.{desk_after};
ghost use Rattle.be_desk.specs.Desks.{IsRefusedFor, desk_of};
ghost use Rattle.be_desk.specs.Plans.{lent};
ghost use Rattle.be_machine.specs.Touched as part;
ghost use Rattle.be_ready.specs.Lent.{AreLent};
ghost use Rattle.be_ready.specs.Plannable.{IsPlannable};
ghost use Rattle.be_changes.specs.Planned.{IsPlannedIn};
ghost use Rattle.be_rules.specs.Places.{place_of};
ghost use Rattle.be_script.specs.Limits.{IsWithinLimits};
ghost use Rattle.be_script.specs.Script.{declared_by};
ghost use Rattle.be_steps.specs.There.{IsThere};

use crate::there::pane_there;
use be_asking::pane_place;
use be_desk::{Desk, Plan, PlanFault, affected, plan};
use be_geom::{Change, NoMemory};
use be_hall::Held;
use be_pane::Pane;
use be_parts::Part;
use be_script::Script;
use std::alloc::Global;

/// The plan of a change of window `w` with the panes of the windows that win or lose pixels by it,
/// and the places of these panes in the plan's order.
pub(crate) fn plan_for(
    alloc: Global,
    script: &Script,
    held: &Held<Part>,
    desk: &Desk,
    w: u16,
    change: &Change,
) -> Result<(Plan, Vec<u32>), PlanFault>
    requires { IsPlannable (declared_by script.now) held.now.parts (desk_of desk.now) w
        change.now }
    ensures planned { IfOk result (λ made. (made.0.window ≡ w) × (made.0.change ≡ change.now)
        × IsPlannedIn (declared_by script.now) held.now.parts made.0 made.1.items) }
    ensures refused { IfErr result (IsRefusedFor (desk_after (desk_of desk.now) w change.now)) }
{
    let names = affected(alloc, desk, w, change)?;
    let panes = panes_of(alloc, script, held, &names)?;
    let places = places_of(alloc, script, &names)?;
    let plan = plan(alloc, desk, &panes, w, change)?;
    Ok((plan, places))
}

/// The panes of these windows.
fn panes_of<'a>(
    alloc: Global,
    script: &Script,
    held: &'a Held<Part>,
    names: &[u16],
) -> Result<Vec<&'a Pane>, NoMemory>
    requires { (u : ℕ) → Contains names.now u
        → IsThere (declared_by script.now) held.now.parts (part.pane u) }
    ensures { IfOk result (λ panes.
        AreLent (declared_by script.now) held.now.parts names.now (lent panes.items)) }
{
    let mut panes = Vec::with_capacity(alloc, names.len())?;
    for w in names {
        let pane = pane_there(script, held, *w).pane();
        let _views = pane.tree.len();
        panes.push(pane)?;
    }
    Ok(panes)
}

/// The places of the panes of these windows.
fn places_of(alloc: Global, script: &Script, names: &[u16]) -> Result<Vec<u32>, NoMemory>
    requires { IsWithinLimits (declared_by script.now) }
    ensures { IfOk result (λ places. places.items
        ≡ map (λ u. place_of (declared_by script.now) (part.pane u)) names.now) }
{
    let mut places = Vec::with_capacity(alloc, names.len())?;
    for w in names {
        places.push(pane_place(script, *w))?;
    }
    Ok(places)
}

ghost use Rattle.std.specs.Prelude.{◌≡◌, Ok, IfOk};
ghost use Rattle.be_desk.specs.Changes.{desk_after};
ghost use Rattle.be_desk.specs.Desks.{desk_of};
ghost use Rattle.be_desk.specs.Plans.{IsPlanOf, lent};
ghost use Rattle.desk_screen.specs.Screens.{IsAskable, IsScreen};

use be_desk::{Desk, Plan, PlanFault, carry_out_desk, carry_out_pane, plan};
use be_geom::{Change, NoMemory};
use be_pane::Pane;
use std::alloc::Global;

/// A change of a window, planned with the panes of all windows.
pub(crate) fn planned(
    alloc: Global,
    desk: &Desk,
    panes: &[Pane],
    w: u16,
    change: &Change,
) -> Result<Plan, PlanFault>
    requires screen { IsScreen (desk_of desk.now) panes.now }
    requires askable { IsAskable desk.now.stack w change.now }
    ensures window { IfOk result (λ plan. plan.window ≡ w) }
    ensures change { IfOk result (λ plan. plan.change ≡ change.now) }
    ensures plan { IfOk result (λ plan. IsPlanOf plan (desk_of desk.now) panes.now) }
{
    let all = lend(alloc, panes)?;
    plan(alloc, desk, &all, w, change)
}

fn lend<'a>(alloc: Global, panes: &'a [Pane]) -> Result<Vec<&'a Pane>, NoMemory>
    ensures { IfOk result (λ all. lent all.items ≡ panes.now) }
{
    let mut all = Vec::with_capacity(alloc, panes.len())?;
    for pane in panes {
        all.push(pane)?;
    }
    Ok(all)
}

/// Carries a planned change out on each pane, and on the desk last.
pub(crate) fn carry_out(desk: &mut Desk, panes: &mut [Pane], plan: Plan)
    requires screen { IsScreen (desk_of desk.old) panes.old }
    requires plan { IsPlanOf plan (desk_of desk.old) panes.old }
    ensures screen { IsScreen (desk_of desk.new) panes.new }
    ensures changed { desk_after (desk_of desk.old) plan.window plan.change
        ≡ Ok (desk_of desk.new) }
{
    let mut plan = plan;
    for number in 0..panes.len() {
        carry_out_pane(&mut plan, number, &mut panes[number]);
    }
    carry_out_desk(desk, plan);
}

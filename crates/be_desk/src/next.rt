ghost use Rattle.std.specs.Prelude.{◌≡◌, ◌<◌, ◌≤ℤ◌, ◌⊎◌, pos, Ok, Err, None, Some, IfOk, IfErr};
ghost use Rattle.std.specs.Prelude.{IsTrue, length, slice_get, option_and_then};
ghost use Rattle.be_stack.specs.Limits.{is_within_limits};
ghost use Rattle.be_stack.specs.Windows as windows;
ghost use Rattle.be_views.specs.Resizing.{resized};
ghost use Rattle.be_desk.specs.Affected.{IsZone};
ghost use Rattle.be_desk.specs.Changes.{desk_after, desk_with};
ghost use Rattle.be_desk.specs.Desks.{desk_of, desk_with_both, IsAsked, IsRefusedFor};

use crate::desk::Desk;
use crate::fault::PlanFault;
use crate::zone::{Zone, zone_of};
use be_geom::Change;
use be_stack::{ChangeFault, Stack};
use be_views::ViewTree;

/// What a change makes anew of the desk.
#[derive(Drop)]
pub(crate) struct Next {
    pub stack: Stack,
    /// The views of the changed window, where it is resized.
    pub tree: Option<ViewTree>,
    pub zone: Zone,
}

/// What a change of window `w` makes of the desk, or why it is refused.
pub(crate) fn next_of(desk: &Desk, w: u16, change: &Change) -> Result<Next, PlanFault>
    requires { IsAsked (desk_of desk.now) w change.now }
    ensures next { IfOk result (λ next. desk_after (desk_of desk.now) w change.now
        ≡ Ok (desk_with_both (desk_of desk.now) w change.now next.stack next.tree)) }
    ensures zone { IfOk result (λ next. IsZone desk.now.stack next.stack w next.zone) }
    ensures refused { IfErr result (IsRefusedFor (desk_after (desk_of desk.now) w change.now)) }
{
    let mut stack = desk.stack.copy()?;
    if let Err(fault) = stack.apply(w, change) {
        return Err(fault_of(fault));
    }
    let tree = new_tree(desk, w, *change)?;
    let zone = zone_of(&desk.stack, &stack, w)?;
    Ok(Next { stack, tree, zone })
}

fn fault_of(fault: ChangeFault) -> PlanFault
    ensures { IsRefusedFor (Err fault) result }
{
    match fault {
        ChangeFault::Gone => PlanFault::Gone,
        ChangeFault::OffRange => PlanFault::OffRange,
    }
}

/// The views of the changed window, where the change gives it others.
fn new_tree(desk: &Desk, w: u16, change: Change) -> Result<Option<ViewTree>, PlanFault>
    requires there { w < length desk.now.pointing.trees }
    requires within_limits { IsTrue (is_within_limits change) }
    ensures tree { IfOk result (λ tree. (then_windows : windows.Windows)
        → desk_with (desk_of desk.now) w then_windows change
        ≡ Ok (desk_with_both (desk_of desk.now) w change then_windows tree)) }
    ensures refused { IfErr result (λ fault. (then_windows : windows.Windows)
        → IsRefusedFor (desk_with (desk_of desk.now) w then_windows change) fault) }
{
    match change {
        Change::ResizeTo(width, height) => Ok(Some(resized(desk, w, width, height)?)),
        Change::Show
        | Change::Hide
        | Change::MoveTo(_)
        | Change::MoveBy(_, _)
        | Change::Activate
        | Change::Behind(_)
        | Change::Focus(_)
        | Change::Close => Ok(None),
    }
}

/// The views of a window after its resize.
fn resized(desk: &Desk, w: u16, width: i16, height: i16) -> Result<ViewTree, PlanFault>
    requires there { w < length desk.now.pointing.trees }
    requires across { pos 0 ≤ℤ width }
    requires down { pos 0 ≤ℤ height }
    ensures tree { IfOk result (λ tree. option_and_then (λ t. resized t width height)
        (slice_get desk.now.pointing.trees w) ≡ Some tree) }
    ensures refused { IfErr result (λ fault. (fault ≡ PlanFault.NoMemory)
        ⊎ ((fault ≡ PlanFault.OffRange) × (option_and_then (λ t. resized t width height)
        (slice_get desk.now.pointing.trees w) ≡ None))) }
{
    let mut tree = desk.pointing.tree(w).copy()?;
    if tree.resize(width, height).is_err() {
        return Err(PlanFault::OffRange);
    }
    Ok(tree)
}

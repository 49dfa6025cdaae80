ghost use Rattle.std.specs.Prelude.{◌≡◌, ◌<◌, ◌-ℤ◌, List, Contains, IfOk, IfErr, Ok, Some};
ghost use Rattle.std.specs.Prelude.{length, map, slice_get};
ghost use Rattle.be_input.specs.Pointing.{corner_of};
ghost use Rattle.be_span.specs.Laid.{IsShift};
ghost use Rattle.be_stack.specs.Visible.{IsVisible};
ghost use Rattle.be_views.specs.Trees.{Tree};
ghost use Rattle.be_desk.specs.Affected.{HasAltered, IsZone, OthersStay};
ghost use Rattle.be_desk.specs.Changes as machine;
ghost use Rattle.be_desk.specs.Changes.{desk_after};
ghost use Rattle.be_desk.specs.Desks.{desk_of, desk_with_both, trees_with, IsAsked, IsRefusedFor};
ghost use Rattle.be_desk.specs.Plans.{AreAscending, ArePanesOf, AreRenewed, IsPlanOf, lent};
ghost use Rattle.be_desk.specs.Renewed.{AreChangedTo, IsChange, IsRenewalIn, motion_in};
ghost use Rattle.be_desk.specs.Renewals.{IsNearBy};
ghost use Rattle.be_desk.specs.declared.renewal.Motion.TheVariants.{Still, Moving};

use crate::altered::has_same_pixels;
use crate::desk::Desk;
use crate::fault::PlanFault;
use crate::next::{Next, next_of};
use crate::planned::{Plan, Renewed};
use crate::ready::made_ready;
use crate::renewal::{Motion, Renewal, is_still};
use crate::zone::{is_apart, owned_after};
use be_geom::{Change, NoMemory, Point};
use be_pane::Pane;
use be_region::Region;
use be_stack::Stack;
use be_views::ViewTree;
use std::alloc::Global;

/// Makes ready a change of window `w`. The panes are those of the windows that `affected` names,
/// and more may be among them, each of another window, in order of number.
///
/// It costs the rectangles of `w` before and after, those of the windows whose frames have a pixel
/// of them, and the pixels that are newly exposed; where `w` is resized, all of its pixels. What is
/// in front of a window is asked only where `w` gives up pixels of its frame.
pub fn plan(
    alloc: Global,
    desk: &Desk,
    panes: &[&Pane],
    w: u16,
    change: &Change,
) -> Result<Plan, PlanFault>
    requires asked { IsAsked (desk_of desk.now) w change.now }
    requires panes { ArePanesOf (desk_of desk.now) (lent panes.now) }
    requires ascending { AreAscending (lent panes.now) }
    requires named { (after : machine.Desk) → desk_after (desk_of desk.now) w change.now ≡ Ok after
        → HasAltered desk.now.stack after.windows (map (λ pane. pane.window) (lent panes.now)) }
    ensures window { IfOk result (λ plan. plan.window ≡ w) }
    ensures change { IfOk result (λ plan. plan.change ≡ change.now) }
    ensures plan { IfOk result (λ plan. IsPlanOf plan (desk_of desk.now) (lent panes.now)) }
    ensures refused { IfErr result (IsRefusedFor (desk_after (desk_of desk.now) w change.now)) }
{
    let next = next_of(desk, w, change)?;
    let spans = all_spans(alloc, desk, &next, panes, w, change)?;
    Ok(Plan {
        window: w,
        change: *change,
        stack: next.stack,
        spans,
    })
}

/// For each pane what becomes of its pixels. None where they are as before.
fn all_spans(
    alloc: Global,
    desk: &Desk,
    next: &Next,
    panes: &[&Pane],
    w: u16,
    change: &Change,
) -> Result<Vec<Option<Renewed>>, NoMemory>
    requires change { IsChange (desk_of desk.now)
        (desk_with_both (desk_of desk.now) w change.now next.now.stack next.now.tree)
        w change.now (lent panes.now) }
    requires zone { IsZone desk.now.stack next.now.stack w next.now.zone }
    ensures { IfOk result (λ all. AreChangedTo (desk_of desk.now)
        (desk_with_both (desk_of desk.now) w change.now next.now.stack next.now.tree)
        w change.now (lent panes.now) all.items (length panes.now)) }
{
    let mut all = Vec::with_capacity(alloc, panes.len())?;
    for pane in panes {
        all.push(new_spans(alloc, desk, next, panes, *pane, w, change)?)?;
    }
    Ok(all)
}

/// What becomes of a pane's pixels. None where they are as before.
fn new_spans(
    alloc: Global,
    desk: &Desk,
    next: &Next,
    panes: &[&Pane],
    pane: &Pane,
    w: u16,
    change: &Change,
) -> Result<Option<Renewed>, NoMemory>
    requires change { IsChange (desk_of desk.now)
        (desk_with_both (desk_of desk.now) w change.now next.now.stack next.now.tree)
        w change.now (lent panes.now) }
    requires zone { IsZone desk.now.stack next.now.stack w next.now.zone }
    requires listed { Contains (lent panes.now) pane.now }
    ensures { IfOk result (AreRenewed (desk_of desk.now)
        (desk_with_both (desk_of desk.now) w change.now next.now.stack next.now.tree)
        w change.now (lent panes.now) pane.now) }
{
    let renewal = renewal_of(desk, next, pane, w, change);
    if is_apart(&desk.stack, &next.zone, w, pane.window) {
        return Ok(None);
    }
    let region = region_of(desk, next, pane, w)?;
    if is_still(renewal.motion) && has_same_pixels(&region, pane.spans.region()) {
        return Ok(None);
    }
    Ok(Some(made_ready(alloc, &renewal, panes, region)?))
}

/// What a pane's window owns afterwards.
fn region_of(desk: &Desk, next: &Next, pane: &Pane, w: u16) -> Result<Region, NoMemory>
    requires zone { IsZone desk.now.stack next.now.stack w next.now.zone }
    requires others { OthersStay desk.now.stack next.now.stack w }
    requires owned { IsVisible pane.now.spans.rects desk.now.stack pane.now.window }
    ensures { IfOk result (λ region. IsVisible region next.now.stack pane.now.window) }
{
    if pane.window == w {
        return next.zone.new.copy();
    }
    let owned = pane.spans.region();
    owned_after(&desk.stack, &next.stack, &next.zone, pane.window, owned)
}

/// What becomes of a pane's window.
fn renewal_of<'a>(
    desk: &Desk,
    next: &'a Next,
    pane: &'a Pane,
    w: u16,
    change: &Change,
) -> Renewal<'a>
    requires there { pane.now.window < length next.now.stack.windows }
    requires views { slice_get desk.now.pointing.trees pane.now.window ≡ Some pane.now.tree }
    ensures pane { result.pane.now ≡ pane.now }
    ensures renewal { IsRenewalIn
        (desk_with_both (desk_of desk.now) w change.now next.now.stack next.now.tree)
        w change.now result }
    ensures near { IsNearBy result.motion }
{
    let place = place_of(&next.stack, pane.window);
    Renewal {
        pane,
        place,
        tree: tree_of(next, pane, w),
        motion: motion_of(w, *change, pane.window, pane.place, place),
    }
}

/// The left top of a window.
fn place_of(stack: &Stack, u: u16) -> Point
    requires { u < length stack.now.windows }
    ensures { corner_of stack.now u ≡ Some result }
{
    let frame = stack.frame(u).unwrap();
    Point {
        x: frame.left,
        y: frame.top,
    }
}

/// The views of a pane's window.
fn tree_of<'a>(next: &'a Next, pane: &'a Pane, w: u16) -> &'a ViewTree
    ensures tree { (trees : List Tree) → slice_get trees pane.now.window ≡ Some pane.now.tree
        → slice_get (trees_with trees w next.now.tree) pane.now.window ≡ Some result.now }
{
    match &next.tree {
        Some(tree) if pane.window == w => tree,
        _ => &pane.tree,
    }
}

/// How a change of window `w` treats the pixels that window `u` keeps, whose left top was at one
/// point and is at the other.
fn motion_of(w: u16, change: Change, u: u16, old: Point, new: Point) -> Motion
    ensures motion { result ≡ motion_in w change u old new }
    ensures near { IsNearBy result }
{
    if u != w {
        return Motion::Still;
    }
    match change {
        Change::MoveTo(_) => moving(old, new),
        Change::MoveBy(_, _) => moving(old, new),
        Change::ResizeTo(_, _) => Motion::Resizing,
        Change::Show
        | Change::Hide
        | Change::Activate
        | Change::Behind(_)
        | Change::Focus(_)
        | Change::Close => Motion::Still,
    }
}

fn moving(old: Point, new: Point) -> Motion
    ensures motion { result ≡ Moving (new.x -ℤ old.x) (new.y -ℤ old.y) }
    ensures near { IsNearBy result }
{
    Motion::Moving {
        x: way(old.x, new.x),
        y: way(old.y, new.y),
    }
}

/// How far it is from one coordinate to another.
fn way(old: i16, new: i16) -> i32
    ensures way { result ≡ new -ℤ old }
    ensures near { IsShift result }
{
    i32::from(new) - i32::from(old)
}

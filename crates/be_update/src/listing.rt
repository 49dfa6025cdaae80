ghost use Rattle.std.specs.Prelude.{◌≡◌, ◌+ℤ◌, ◌≤ℤ◌, neg_ℤ, pos, Some, List, IfOk};
ghost use Rattle.be_geom.specs.Rects.{moved_rect};
ghost use Rattle.be_geom.specs.declared.point.Point.{Point};
ghost use Rattle.be_views.specs.Whole.{IsTree};
ghost use Rattle.be_region.specs.Sessions.{SameSession};
ghost use Rattle.be_update.specs.Listing.{rect_in, stopped, stopped_rect};
ghost use Rattle.be_update.specs.Rows.{AreAmong};
ghost use Rattle.be_update.specs.Surveys.{AreListed};

use crate::preorder::preorder;
use be_geom::{NoMemory, Rect};
use be_region::Region;
use be_views::{ClipFault, ViewTree};
use std::alloc::Global;

/// Where a coordinate stops.
const LAST: i16 = 32767;

/// The views that have pixels of the session, each with the rectangle round them.
pub(crate) fn listed(
    alloc: Global,
    tree: &ViewTree,
    session: &Region,
) -> Result<Vec<(u16, Rect)>, NoMemory>
    ensures { IfOk result (λ views. AreListed views.items tree.now session.now) }
{
    let order = preorder(alloc, tree)?;
    listed_among(alloc, tree, session, &order)
}

/// The same of these views, in this order.
fn listed_among(
    alloc: Global,
    tree: &ViewTree,
    session: &Region,
    order: &[u16],
) -> Result<Vec<(u16, Rect)>, NoMemory>
    ensures { IfOk result (λ views. AreAmong order.now views.items tree.now session.now) }
{
    let mut views = Vec::with_capacity(alloc, tree.len())?;
    for view in order {
        if let Some(rect) = rect_in(tree, session, *view)? {
            views.push((*view, rect))?;
        }
    }
    Ok(views)
}

/// The smallest rectangle round a view's pixels of the session, in the view's coordinates, each of
/// which stops at 32767.
fn rect_in(tree: &ViewTree, session: &Region, view: u16) -> Result<Option<Rect>, NoMemory>
    requires { IsTree tree.now }
    ensures { IfOk result (λ rect. (pixels : List Point)
        → SameSession (Some session.now) (Some pixels) → rect ≡ rect_in tree.now pixels view) }
{
    let mut own = match tree.clip_of(view) {
        Ok(clip) => clip,
        Err(ClipFault::NoView) => return Ok(None),
        Err(ClipFault::NoMemory) => return Err(NoMemory),
    };
    own.intersect(session)?;
    let Some((left, top)) = tree.place_of(view) else {
        return Ok(None);
    };
    Ok(match own.frame() {
        Some(frame) => Some(rect_from(left, top, frame)),
        None => None,
    })
}

/// A rectangle counted from a point, as far as 32767.
fn rect_from(left: i32, top: i32, rect: Rect) -> Rect
    requires left { left ≤ℤ (rect.left +ℤ pos 32767) }
    requires top { top ≤ℤ (rect.top +ℤ pos 32767) }
    requires across { rect.left ≤ℤ rect.right }
    requires down { rect.top ≤ℤ rect.bottom }
    ensures { result ≡ stopped_rect (moved_rect rect (neg_ℤ left) (neg_ℤ top)) }
{
    Rect {
        left: seen_from(left, rect.left),
        top: seen_from(top, rect.top),
        right: seen_from(left, rect.right),
        bottom: seen_from(top, rect.bottom),
    }
}

/// A coordinate counted from another one, as far as 32767.
fn seen_from(zero: i32, coordinate: i16) -> i16
    requires { zero ≤ℤ (coordinate +ℤ pos 32767) }
    ensures { result ≡ stopped (coordinate +ℤ neg_ℤ zero) }
{
    let seen = i64::from(coordinate) - i64::from(zero);
    if seen < i64::from(LAST) {
        seen as i16
    } else {
        LAST
    }
}

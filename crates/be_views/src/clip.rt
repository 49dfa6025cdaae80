ghost use Rattle.std.specs.Prelude.{◌≡◌, ◌<◌, ◌≤◌, ℤ, ◌-ℤ◌, true, length, IfOk, OnOk};
ghost use Rattle.be_geom.specs.Points.{in_range, between};
ghost use Rattle.be_region.specs.Regions.{HasPixelsOf};
ghost use Rattle.be_views.specs.Clips.{IsClip, IsInRange, HasPixelsMoved, IsUncovered, IsReach};
ghost use Rattle.be_views.specs.Clips.{edges_have};
ghost use Rattle.be_geom.specs.Places.{IsNear};
ghost use Rattle.be_views.specs.Whole.{AreParentsFirst};

use crate::children::lies_in;
use crate::view::View;
use be_geom::{NoMemory, Rect};
use be_region::Region;
use std::alloc::Global;

/// The least coordinate.
const FIRST: i32 = -32768;

/// The greatest coordinate.
const LAST: i32 = 32767;

/// The pixels of the window from which the way from the root down comes by a view.
#[derive(Drop)]
struct Reach {
    region: Region,
    /// How far right the view's left top is of the window's.
    left: i32,
    /// How far below it is.
    top: i32,
}

/// The pixels of the window at which the view is view `v`.
pub(crate) fn clip_of(alloc: Global, views: &[View], v: u16) -> Result<Region, NoMemory>
    requires there { v < length views.now }
    requires few { length views.now ≤ 32 }
    requires parents { AreParentsFirst views.now }
    ensures { IfOk result (IsClip views.now v) }
{
    let mut reach = reach_of(alloc, views, v)?;
    leave_out(alloc, &mut reach.region, views, v, reach.left, reach.top)?;
    Ok(reach.region)
}

/// From the root down: each view's pixels are its parent's, cut by its frame, less the later
/// siblings.
fn reach_of(alloc: Global, views: &[View], v: u16) -> Result<Reach, NoMemory>
    requires there { v < length views.now }
    requires few { length views.now ≤ 32 }
    requires parents { AreParentsFirst views.now }
    ensures reach { IfOk result (λ r. IsReach views.now v r.left r.top r.region) }
    ensures in_range { IfOk result (λ r. IsInRange r.region) }
    ensures across { IfOk result (λ r. IsNear v r.left) }
    ensures down { IfOk result (λ r. IsNear v r.top) }
{
    let view = views[usize::from(v)];
    match view.parent {
        Some(parent) => {
            let mut reach = reach_of(alloc, views, parent)?;
            let frame = region_of(alloc, view.frame, reach.left, reach.top)?;
            reach.region.intersect(&frame)?;
            let later = &views[usize::from(v) + 1..];
            leave_out(
                alloc,
                &mut reach.region,
                later,
                parent,
                reach.left,
                reach.top,
            )?;
            Ok(Reach {
                region: reach.region,
                left: reach.left + i32::from(view.frame.left),
                top: reach.top + i32::from(view.frame.top),
            })
        }
        None => Ok(Reach {
            region: region_in(alloc, view.frame)?,
            left: 0,
            top: 0,
        }),
    }
}

/// The pixels of a frame that isn't moved.
fn region_in(alloc: Global, frame: Rect) -> Result<Region, NoMemory>
    ensures pixels { IfOk result (λ region. HasPixelsOf region frame) }
    ensures in_range { IfOk result (λ region. IsInRange region) }
{
    Region::from_rect(alloc, frame)
}

/// Takes away what those of the views cover that lie in view `v`, whose left top is given.
fn leave_out(
    alloc: Global,
    region: &mut Region,
    views: &[View],
    v: u16,
    left: i32,
    top: i32,
) -> Result<(), NoMemory>
    requires in_range { IsInRange region.old }
    requires across { IsNear 32 left }
    requires down { IsNear 32 top }
    ensures { OnOk result (IsUncovered region.new region.old views.now v left top) }
{
    for view in views {
        if lies_in(view.parent, v) {
            region.exclude(&region_of(alloc, view.frame, left, top)?)?;
        }
    }
    Ok(())
}

/// The frame's pixels, moved by so much, as far as they stay in the range of coordinates.
fn region_of(alloc: Global, frame: Rect, left: i32, top: i32) -> Result<Region, NoMemory>
    requires across { IsNear 32 left }
    requires down { IsNear 32 top }
    ensures { IfOk result (λ region. HasPixelsMoved region frame left top) }
{
    let Some((left, right)) = moved_edges(frame.left, frame.right, left) else {
        return Ok(Region::empty(alloc));
    };
    let Some((top, bottom)) = moved_edges(frame.top, frame.bottom, top) else {
        return Ok(Region::empty(alloc));
    };
    Region::from_rect(
        alloc,
        Rect {
            left,
            top,
            right,
            bottom,
        },
    )
}

/// The first and the last of the coordinates from `low` to `high`, moved by so much, that stay in
/// the range. None where none does.
fn moved_edges(low: i16, high: i16, by: i32) -> Option<(i16, i16)>
    requires { IsNear 32 by }
    ensures { (z : ℤ) → in_range z ≡ true → edges_have result z ≡ between low (z -ℤ by) high }
{
    let first = (i32::from(low) + by).max(FIRST);
    let last = (i32::from(high) + by).min(LAST);
    if first <= last {
        Some((first as i16, last as i16))
    } else {
        None
    }
}

ghost use Rattle.std.specs.Prelude.{◌≡◌, ◌+ℤ◌, ◌-ℤ◌, ◌↔◌, false, IsNone, IfSome};
ghost use Rattle.be_geom.specs.Points.{between, in_range};
ghost use Rattle.be_geom.specs.Rects.{rect_has, moved_rect};
ghost use Rattle.be_stack.specs.Windows.{is_size, is_window_frame};
ghost use Rattle.be_stack.specs.Changes.{within_range, resized_rect};

use crate::fault::ChangeFault;
use be_geom::{Point, Rect};

/// The last number that a width or a height may be, as the last edge less the first.
const MAX_SIZE: i32 = 32767;

/// Whether a window may be made with the frame.
pub(crate) fn is_window_frame(frame: Rect) -> bool
    ensures { result ≡ is_window_frame frame }
{
    is_size(frame.left, frame.right) && is_size(frame.top, frame.bottom)
}

fn is_size(first: i16, last: i16) -> bool
    ensures { result ≡ is_size (last -ℤ first) }
{
    first <= last && i32::from(last) - i32::from(first) <= MAX_SIZE
}

/// Whether the pixel is in the frame.
pub(crate) fn has_pixel(frame: Rect, x: i32, y: i32) -> bool
    ensures { result ≡ rect_has frame x y }
{
    is_between(frame.left, x, frame.right) && is_between(frame.top, y, frame.bottom)
}

fn is_between(low: i16, z: i32, high: i16) -> bool
    ensures { result ≡ between low z high }
{
    i32::from(low) <= z && z <= i32::from(high)
}

/// The frame, of the same size, with its left top corner at the point.
pub(crate) fn moved_to(frame: Rect, corner: Point) -> Result<Rect, ChangeFault>
    ensures { result ≡ within_range
        (moved_rect frame (corner.x -ℤ frame.left) (corner.y -ℤ frame.top)) }
{
    let right = distance(frame.left, corner.x);
    let down = distance(frame.top, corner.y);
    moved_by(frame, right, down)
}

fn distance(from: i16, to: i16) -> i32
    ensures { result ≡ to -ℤ from }
{
    i32::from(to) - i32::from(from)
}

/// The frame so much further right and so much further down.
pub(crate) fn moved_by(frame: Rect, dx: i32, dy: i32) -> Result<Rect, ChangeFault>
    ensures { result ≡ within_range (moved_rect frame dx dy) }
{
    frame.offset(dx, dy).map_err(|_| ChangeFault::OffRange)
}

/// The frame with the same left top corner, and so large.
pub(crate) fn resized_to(frame: Rect, width: i16, height: i16) -> Result<Rect, ChangeFault>
    ensures { result ≡ within_range (resized_rect frame width height) }
{
    match (moved(frame.left, width), moved(frame.top, height)) {
        (Some(right), Some(bottom)) => Ok(Rect {
            right,
            bottom,
            ..frame
        }),
        _ => Err(ChangeFault::OffRange),
    }
}

fn moved(edge: i16, by: i16) -> Option<i16>
    ensures moved { IfSome result (λ z. z ≡ edge +ℤ by) }
    ensures out { IsNone result ↔ (in_range (edge +ℤ by) ≡ false) }
{
    edge.checked_add(by)
}

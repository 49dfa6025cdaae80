ghost use Rattle.std.specs.Prelude.{◌≡◌, ◌+ℤ◌, ◌↔◌, false, IsErr, IfOk};
ghost use Rattle.be_geom.specs.Points.{in_range};
ghost use Rattle.be_geom.specs.Rects.{rect_fits};
ghost use Rattle.be_follow.specs.Frames.{shifted_frame, followed_frame};

use crate::mode::Follow;
use be_geom::{OutOfRange, Rect};

/// The frame that a view of this resizing mode has after its parent's resize. A size is in pixels,
/// the last edge less the first plus 1, and may be 0 or less; the frame may be or become empty.
pub fn follow(
    frame: Rect,
    mode: Follow,
    old_w: i32,
    old_h: i32,
    new_w: i32,
    new_h: i32,
) -> Result<Rect, OutOfRange>
    ensures followed { IfOk result (λ r. r ≡ followed_frame frame mode old_w old_h new_w new_h) }
    ensures out { IsErr result
        ↔ (rect_fits (followed_frame frame mode old_w old_h new_w new_h) ≡ false) }
{
    let across = mode.across.shifts(old_w, new_w);
    let down = mode.down.shifts(old_h, new_h);
    shifted(frame, across.0, down.0, across.1, down.1)
}

fn shifted(frame: Rect, left: i64, top: i64, right: i64, bottom: i64) -> Result<Rect, OutOfRange>
    ensures shifted { IfOk result (λ r. r ≡ shifted_frame frame left top right bottom) }
    ensures out { IsErr result ↔ (rect_fits (shifted_frame frame left top right bottom) ≡ false) }
{
    Ok(Rect {
        left: moved(frame.left, left)?,
        top: moved(frame.top, top)?,
        right: moved(frame.right, right)?,
        bottom: moved(frame.bottom, bottom)?,
    })
}

fn moved(edge: i16, by: i64) -> Result<i16, OutOfRange>
    ensures moved { IfOk result (λ z. z ≡ edge +ℤ by) }
    ensures out { IsErr result ↔ (in_range (edge +ℤ by) ≡ false) }
{
    i16::try_from(i64::from(edge).saturating_add(by)).map_err(|_| OutOfRange)
}

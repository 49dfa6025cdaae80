ghost use Rattle.std.specs.Prelude.{◌≡◌, ◌<◌, ◌≤◌, ◌↔◌, pos, ◌≤ℤ◌, ◌+ℤ◌, ◌-ℤ◌, false, length, take};
ghost use Rattle.std.specs.Prelude.{IsErr, IfOk};
ghost use Rattle.std.specs.List.{list_all};
ghost use Rattle.be_geom.specs.Rects.{rect_fits};
ghost use Rattle.be_views.specs.Resizing.{frames_after, frame_after, with_frames, root_frame};
ghost use Rattle.be_views.specs.Resizing.{pixel_width, pixel_height};
ghost use Rattle.be_views.specs.Whole.{AreParentsFirst};

use crate::view::View;
use be_follow::follow;
use be_geom::{OutOfRange, Rect};

/// How many views a window may have, the root among them.
pub(crate) const MAX_VIEWS: usize = 32;

/// The new frames of the views, each at its view's number; those behind the last view mean nothing.
pub(crate) fn frames_after(
    views: &[View],
    width: i16,
    height: i16,
) -> Result<[Rect; MAX_VIEWS], OutOfRange>
    requires few { length views.now ≤ 32 }
    requires parents { AreParentsFirst views.now }
    ensures frames { IfOk result (λ frames.
        take (length views.now) frames ≡ frames_after views.now width height) }
    ensures out { IsErr result
        ↔ (list_all rect_fits (frames_after views.now width height) ≡ false) }
{
    let mut frames = [root_frame(width, height); MAX_VIEWS];
    for (k, view) in views.iter().enumerate() {
        if let Some(parent) = view.parent {
            let parent = usize::from(parent);
            frames[k] = frame_after(*view, views[parent], frames[parent])?;
        }
    }
    Ok(frames)
}

/// The new frame of a view whose parent's new frame is given.
fn frame_after(view: View, parent: View, now: Rect) -> Result<Rect, OutOfRange>
    ensures followed { IfOk result (λ r. r ≡ frame_after view (Some parent) (Some now)) }
    ensures out { IsErr result ↔ (rect_fits (frame_after view (Some parent) (Some now)) ≡ false) }
{
    follow(
        view.frame,
        view.mode,
        pixel_width(parent.frame),
        pixel_height(parent.frame),
        pixel_width(now),
        pixel_height(now),
    )
}

/// The root's frame in a window of this size.
pub(crate) fn root_frame(width: i16, height: i16) -> Rect
    ensures { result ≡ root_frame width height }
{
    Rect {
        left: 0,
        top: 0,
        right: width,
        bottom: height,
    }
}

fn pixel_width(frame: Rect) -> i32
    ensures { result ≡ pixel_width frame }
{
    i32::from(frame.right) - i32::from(frame.left) + 1
}

fn pixel_height(frame: Rect) -> i32
    ensures { result ≡ pixel_height frame }
{
    i32::from(frame.bottom) - i32::from(frame.top) + 1
}

/// Gives each view the frame at its number.
pub(crate) fn set_frames(views: &mut [View], frames: &[Rect])
    requires { length views.old ≤ length frames.now }
    ensures { views.new ≡ with_frames views.old frames.now }
{
    for (k, view) in views.iter_mut().enumerate() {
        view.frame = frames[k];
    }
}

ghost use Rattle.std.specs.Prelude.{◌≡◌, ◌<◌, ◌≤◌, ℤ, ◌≤ℤ◌, true, false, length, option_map};
ghost use Rattle.std.specs.Prelude.{IfSome};
ghost use Rattle.be_geom.specs.Rects.{rect_has};
ghost use Rattle.be_views.specs.Pixels.{last_child_at, view_below};
ghost use Rattle.be_views.specs.Clips.{covers};
ghost use Rattle.be_views.specs.Runs.{IsRunTo};
ghost use Rattle.be_views.specs.Whole.{AreParentsFirst};

use crate::children::{is_between, last_child_at, lies_in, within};
use crate::view::View;
use be_geom::Rect;

/// The view below view `v` at a pixel, in so many steps at most, and the last column up to which
/// that stays along the row, `end` at most. Columns are those of `v`.
pub(crate) fn run_below(
    steps: usize,
    views: &[View],
    v: u16,
    place: (i32, i32),
    end: i32,
) -> (u16, i32)
    requires few { length views.now ≤ 32 }
    requires parents { AreParentsFirst views.now }
    requires forward { place.0 ≤ℤ end }
    ensures view { result.0 ≡ view_below steps views.now v place.0 place.1 }
    ensures run { IsRunTo (λ z. view_below steps views.now v z place.1) place.0 end result.1 }
{
    if steps == 0 {
        return (v, end);
    }
    let (child, last) = child_run(views, v, place, end);
    match child {
        Some((child, frame)) => {
            let left = i32::from(frame.left);
            let inner = within(place, frame);
            let (view, run) = run_below(steps - 1, views, child as u16, inner, last - left);
            (view, run + left)
        }
        None => (v, last),
    }
}

/// The child of view `v` that is in front at a pixel, with its frame, and the last column up to
/// which that stays along the row, `end` at most.
fn child_run(views: &[View], v: u16, place: (i32, i32), end: i32) -> (Option<(usize, Rect)>, i32)
    requires { place.0 ≤ℤ end }
    ensures child { result.0 ≡ option_map (λ child. (child.0, child.1.frame))
        (last_child_at views.now v place.0 place.1) }
    ensures there { IfSome result.0 (λ child. child.0 < length views.now) }
    ensures holds { IfSome result.0 (λ child. rect_has child.1 place.0 place.1 ≡ true) }
    ensures right { IfSome result.0 (λ child. result.1 ≤ℤ child.1.right) }
    ensures run { IsRunTo (λ z. last_child_at views.now v z place.1) place.0 end result.1 }
{
    let child = last_child_at(views, v, place.0, place.1);
    let last = match child {
        Some((child, frame)) => {
            let end = end.min(i32::from(frame.right));
            gap_end(&views[child + 1..], v, place, end)
        }
        None => gap_end(views, v, place, end),
    };
    (child, last)
}

/// The last column before the next of these views that lies in view `v` and has a pixel of the
/// row, or `end`, if that comes first.
fn gap_end(views: &[View], v: u16, place: (i32, i32), end: i32) -> i32
    requires forward { place.0 ≤ℤ end }
    requires none { covers views.now v place.0 place.1 ≡ false }
    ensures { IsRunTo (λ z. covers views.now v z place.1) place.0 end result }
{
    let mut last = end;
    for view in views {
        if lies_in(view.parent, v) {
            last = frame_gap_end(view.frame, place, last);
        }
    }
    last
}

/// The last column before the frame's, or `end`, if that comes first or the frame isn't ahead.
pub(crate) fn frame_gap_end(frame: Rect, place: (i32, i32), end: i32) -> i32
    requires forward { place.0 ≤ℤ end }
    requires none { rect_has frame place.0 place.1 ≡ false }
    ensures { IsRunTo (λ z. rect_has frame z place.1) place.0 end result }
{
    let left = i32::from(frame.left);
    if place.0 < left && frame.left <= frame.right && is_between(frame.top, place.1, frame.bottom) {
        end.min(left - 1)
    } else {
        end
    }
}

ghost use Rattle.std.specs.Prelude.{◌≡◌, ◌<◌, ◌&&◌, true, ◌-ℤ◌, length, option_map, IfSome};
ghost use Rattle.be_geom.specs.Points.{between};
ghost use Rattle.be_geom.specs.Rects.{rect_has};
ghost use Rattle.be_geom.specs.Numbers.{is_number};
ghost use Rattle.be_views.specs.Pixels.{last_child_at};

use crate::view::View;
use be_geom::Rect;

/// Of the views that lie in view `v` directly, the one declared last whose frame holds the pixel,
/// with that frame.
pub(crate) fn last_child_at(views: &[View], v: u16, x: i32, y: i32) -> Option<(usize, Rect)>
    ensures child { result ≡ option_map (λ child. (child.0, child.1.frame))
        (last_child_at views.now v x y) }
    ensures there { IfSome result (λ child. child.0 < length views.now) }
    ensures holds { IfSome result (λ child. rect_has child.1 x y ≡ true) }
{
    for k in (0..views.len()).rev() {
        let view = &views[k];
        if has_pixel(view.frame, x, y) && lies_in(view.parent, v) {
            return Some((k, view.frame));
        }
    }
    None
}

pub(crate) fn lies_in(parent: Option<u16>, v: u16) -> bool
    ensures { result ≡ is_number v parent }
{
    match parent {
        Some(parent) => parent == v,
        None => false,
    }
}

/// Whether the pixel is in the frame.
pub(crate) fn has_pixel(frame: Rect, x: i32, y: i32) -> bool
    ensures { result ≡ rect_has frame x y }
{
    is_between(frame.left, x, frame.right) && is_between(frame.top, y, frame.bottom)
}

pub(crate) fn is_between(low: i16, z: i32, high: i16) -> bool
    ensures { result ≡ between low z high }
{
    i32::from(low) <= z && z <= i32::from(high)
}

/// A pixel of a frame, from the frame's left top on.
pub(crate) fn within(place: (i32, i32), frame: Rect) -> (i32, i32)
    requires { rect_has frame place.0 place.1 ≡ true }
    ensures across { result.0 ≡ place.0 -ℤ frame.left }
    ensures down { result.1 ≡ place.1 -ℤ frame.top }
{
    (
        place.0 - i32::from(frame.left),
        place.1 - i32::from(frame.top),
    )
}

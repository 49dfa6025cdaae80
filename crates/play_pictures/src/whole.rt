ghost use Rattle.std.specs.Prelude.{◌≡◌, ℤ, ◌+ℤ◌, true};
ghost use Rattle.be_geom.specs.Points.{between};
ghost use Rattle.be_geom.specs.Rects.{rect_has, moved_rect};
ghost use Rattle.be_region.specs.Regions.{region_has};
ghost use Rattle.be_pane.specs.StandsFor.{IsWhole};

use be_geom::{Point, Rect};
use be_pane::Pane;
use be_region::Region;

/// Whether a pane may be drawn on: it keeps a colour and states for each view, and no pixel
/// outside its window's frame.
pub(crate) fn is_whole(pane: &Pane) -> bool
    ensures { result ≡ true → IsWhole pane.now }
{
    let Some(frame) = pane.tree.frame_of(0) else {
        return false;
    };
    pane.colors.len() == pane.tree.len()
        && pane.states.len() == pane.tree.len()
        && lies_in(pane.spans.region(), frame, pane.place)
}

/// Whether all pixels of the region are the frame's, which lies so far right and so far down.
fn lies_in(region: &Region, frame: Rect, place: Point) -> bool
    ensures { result ≡ true → (x y : ℤ) → region_has region.now x y ≡ true
        → rect_has (moved_rect frame place.x place.y) x y ≡ true }
{
    match region.frame() {
        Some(round) => has_all(frame, place, round),
        None => true,
    }
}

/// The same of the pixels of a rectangle.
fn has_all(frame: Rect, place: Point, rect: Rect) -> bool
    ensures { result ≡ true → (x y : ℤ) → rect_has rect x y ≡ true
        → rect_has (moved_rect frame place.x place.y) x y ≡ true }
{
    lies_between(rect.left, rect.right, frame.left, frame.right, place.x)
        && lies_between(rect.top, rect.bottom, frame.top, frame.bottom, place.y)
}

/// Whether all numbers from one to another are between two others that are moved so far.
fn lies_between(first: i16, last: i16, low: i16, high: i16, by: i16) -> bool
    ensures { result ≡ true → (z : ℤ) → between first z last ≡ true
        → between (low +ℤ by) z (high +ℤ by) ≡ true }
{
    moved(low, by) <= i32::from(first) && i32::from(last) <= moved(high, by)
}

/// A coordinate, so far on.
fn moved(edge: i16, by: i16) -> i32
    ensures { result ≡ edge +ℤ by }
{
    i32::from(edge) + i32::from(by)
}

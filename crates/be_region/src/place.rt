ghost use Rattle.std.specs.Prelude.{◌≡◌, ◌≤◌, true, false, All, length, IfNone, IfSome};
ghost use Rattle.std.specs.List.{AllPairs, AllWithin};
ghost use Rattle.be_region.specs.Regions.{region_has, IsNotEmpty};
ghost use Rattle.be_region.specs.Bands.{AreBands};
ghost use Rattle.be_region.specs.Runs.{IsRun};
ghost use Rattle.be_region.specs.Places.{is_passed, IsSpanAt};

use be_geom::Rect;

/// Where no column follows.
const LAST_COLUMN: i32 = 2147483647;

/// Whether the pixel is in one of the rectangles.
pub(crate) fn has_at(rects: &[Rect], x: i32, y: i32) -> bool
    requires { AreBands rects.now }
    ensures { result ≡ region_has rects.now x y }
{
    run_at(rects, x, y).0
}

/// Whether the pixel is in one of the rectangles, and the last column up to which that stays so.
pub(crate) fn run_at(rects: &[Rect], x: i32, y: i32) -> (bool, i32)
    requires { AreBands rects.now }
    ensures answer { result.0 ≡ region_has rects.now x y }
    ensures run { IsRun (λ z. region_has rects.now z y) x result.1 }
{
    let Some(rect) = rects.get(place_of(rects, x, y)) else {
        return (false, LAST_COLUMN);
    };
    if y < i32::from(rect.top) {
        return (false, LAST_COLUMN);
    }
    if x < i32::from(rect.left) {
        return (false, i32::from(rect.left) - 1);
    }
    (true, i32::from(rect.right))
}

/// The place of the rectangle that has the pixel.
pub(crate) fn span_at(rects: &[Rect], x: i32, y: i32) -> Option<usize>
    requires { AreBands rects.now }
    ensures none { IfNone result (region_has rects.now x y ≡ false) }
    ensures some { IfSome result (λ place. IsSpanAt rects.now place x y) }
{
    let place = place_of(rects, x, y);
    let Some(rect) = rects.get(place) else {
        return None;
    };
    if y < i32::from(rect.top) {
        return None;
    }
    if x < i32::from(rect.left) {
        return None;
    }
    Some(place)
}

/// The place of the first rectangle that the pixel isn't behind.
fn place_of(rects: &[Rect], x: i32, y: i32) -> usize
    requires { AreBands rects.now }
    ensures within { result ≤ length rects.now }
    ensures passed { AllWithin (λ r. is_passed r x y ≡ true) rects.now 0 result }
    ensures ahead { AllWithin (λ r. is_passed r x y ≡ false) rects.now result (length rects.now) }
{
    rects.partition_point(|rect| is_passed(*rect, x, y))
}

/// Whether the pixel is below the rectangle, or right of it in one of its rows or in those below.
fn is_passed(rect: Rect, x: i32, y: i32) -> bool
    ensures { result ≡ is_passed rect x y }
{
    i32::from(rect.bottom) < y || (i32::from(rect.top) <= y && i32::from(rect.right) < x)
}

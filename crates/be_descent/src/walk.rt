ghost use Rattle.std.specs.Prelude.{◌≡◌, ◌+◌, ◌<◌, ◌≤◌, ◌-ℤ◌, ◌<ℤ◌, true, Some};
ghost use Rattle.std.specs.Prelude.{IfNone, IfSome, length, slice_get};
ghost use Rattle.std.specs.List.{AllWithin};
ghost use Rattle.be_region.specs.Bands.{AreBands};
ghost use Rattle.be_region.specs.Places.{is_passed};
ghost use Rattle.be_descent.specs.Places.{HasNoMore, IsBeside, IsNext, IsStartRow};

use crate::part::part_in;
use crate::way::Way;
use be_geom::Rect;
use be_region::Region;

/// The pixels of an area that a rectangle of a region has.
#[derive(Clone, Copy, Debug)]
pub(crate) struct Found {
    pub(crate) part: Rect,
    /// The place behind the rectangle's, as `Region::rect_at` counts.
    pub(crate) after: usize,
}

/// The first rectangle of a region, from a place on, that has pixels of an area. The region lies
/// that way from where the area counts. It goes past rectangles beside the area by bisection.
#[inline(always)]
pub(crate) fn next_in(region: &Region, from: usize, way: Way, area: Rect) -> Option<Found>
    requires { from ≤ length region.now }
    ensures none { IfNone result (HasNoMore region.now from way area) }
    ensures some { IfSome result (IsNext region.now from way area) }
    ensures bands { AreBands region.now }
{
    let end = region.count();
    let mut place = from;
    while place < end {
        let rect = region.rect_at(place).unwrap();
        if let Some(part) = part_in(area, rect, way) {
            let after = place + 1;
            return Some(Found { part, after });
        }
        place = past(region, place, rect, way, area);
    }
    None
}

/// A place behind a rectangle that is beside an area, up to which all others are so too.
fn past(region: &Region, place: usize, rect: Rect, way: Way, area: Rect) -> usize
    requires there { slice_get region.now place ≡ Some rect }
    requires beside { IsBeside area rect way }
    ensures more { place < result }
    ensures within { result ≤ length region.now }
    ensures beside { AllWithin (λ r. IsBeside area r way) region.now place result }
{
    let end = region.count();
    if ends_above(area, rect, way) {
        return end;
    }
    let (x, y) = start_of(area, rect, way);
    first_ahead(region, place + 1, x, y)
}

/// Whether an area ends above a rectangle.
fn ends_above(area: Rect, rect: Rect, way: Way) -> bool
    ensures { result ≡ true → (area.bottom -ℤ way.down) <ℤ rect.top }
{
    i64::from(area.bottom) - i64::from(way.down) < i64::from(rect.top)
}

/// The pixel, as the region counts, that is behind no rectangle that follows one beside an area and
/// has pixels of the area.
fn start_of(area: Rect, rect: Rect, way: Way) -> (i64, i64)
    ensures across { result.0 ≡ area.left -ℤ way.right }
    ensures down { IsStartRow area rect way result.1 }
{
    let x = i64::from(area.left) - i64::from(way.right);
    let end = i64::from(area.right) - i64::from(way.right);
    if end < i64::from(rect.left) {
        return (x, i64::from(rect.bottom) + 1);
    }
    let top = i64::from(area.top) - i64::from(way.down);
    (x, i64::from(rect.top).max(top))
}

/// From a place on, the first rectangle of a region that a pixel isn't behind.
fn first_ahead(region: &Region, from: usize, x: i64, y: i64) -> usize
    requires { from ≤ length region.now }
    ensures ahead { from ≤ result }
    ensures within { result ≤ length region.now }
    ensures passed { AllWithin (λ r. is_passed r x y ≡ true) region.now from result }
{
    let mut low = from;
    let mut high = region.count();
    while low < high {
        let middle = low + (high - low) / 2;
        let rect = region.rect_at(middle).unwrap();
        if is_passed(rect, x, y) {
            low = middle + 1;
        } else {
            high = middle;
        }
    }
    low
}

/// Whether the pixel is below the rectangle, or right of it in one of its rows or in those below.
fn is_passed(rect: Rect, x: i64, y: i64) -> bool
    ensures { result ≡ is_passed rect x y }
{
    i64::from(rect.bottom) < y || (i64::from(rect.top) <= y && i64::from(rect.right) < x)
}

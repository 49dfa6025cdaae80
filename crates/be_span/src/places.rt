ghost use Rattle.std.specs.Prelude.{◌≡◌, ◌<◌, ◌≤◌, ◌≤ℤ◌, ◌+ℤ◌, ◌-ℤ◌, ◌+◌, ℕ, pos, unsigned_abs};
ghost use Rattle.std.specs.Prelude.{false, IfNone, IfSome, [], ◌∷◌, Some};
ghost use Rattle.be_region.specs.Regions.{IsNotEmpty, region_has};
ghost use Rattle.be_span.specs.Spans.{area_of, height_of, place_in, place_of, width_of};
ghost use Rattle.be_span.specs.Runs.{HasRun, IsRunFrom};

use be_geom::Rect;
use be_region::Region;

/// How many pixels there are from one on to the end of its span. None outside the region.
pub(crate) fn run_from(region: &Region, x: i32, y: i32) -> Option<usize>
    ensures none { IfNone result (region_has region.now x y ≡ false) }
    ensures some { IfSome result (IsRunFrom region.now x y) }
{
    let Some(place) = region.span_at(x, y) else {
        return None;
    };
    let rect = region.rect_at(place).unwrap();
    Some(columns(x, i32::from(rect.right)))
}

/// How many columns there are from one to another that isn't before it.
pub(crate) fn columns(x: i32, last: i32) -> usize
    requires { x ≤ℤ last }
    ensures columns { pos result ≡ last -ℤ x +ℤ pos 1 }
    ensures some { 0 < result }
{
    (i64::from(last) - i64::from(x) + 1) as usize
}

/// Where the cells of the `count` pixels from (x, y) on to the right stand, all of them in one row
/// of the rectangle.
#[inline(always)]
pub(crate) fn start_of(frame: Rect, x: i32, y: i32, count: usize) -> usize
    requires some { 0 < count }
    requires full { IsNotEmpty frame }
    requires run { HasRun (frame ∷ []) x y count }
    ensures stand { (k : ℕ) → k < count
        → place_of (frame ∷ []) (x +ℤ pos k) y ≡ Some (result + k) }
    ensures within { result + count ≤ area_of frame }
{
    place_in(frame, x, y)
}

/// How many of the rectangle's cells come before the one of its pixel.
#[tactic(auto, unfolding(crate::specs::Spans::place_in))]
fn place_in(rect: Rect, x: i32, y: i32) -> usize
    requires across { rect.left ≤ℤ rect.right }
    requires from_left { rect.left ≤ℤ x }
    requires to_right { x ≤ℤ rect.right }
    requires from_top { rect.top ≤ℤ y }
    requires to_bottom { y ≤ℤ rect.bottom }
    ensures { result ≡ place_in rect x y }
{
    steps(rect.top, y) * width_of(rect) + steps(rect.left, x)
}

/// How far it is from an edge to a column or a row that isn't before it.
fn steps(edge: i16, z: i32) -> usize
    requires from { edge ≤ℤ z }
    requires to { z ≤ℤ pos 32768 }
    ensures { result ≡ unsigned_abs (z -ℤ edge) }
{
    (z - i32::from(edge)) as usize
}

/// A pixel, or the way from one pixel to another.
#[derive(Clone, Copy)]
pub(crate) struct Pixel {
    pub x: i32,
    pub y: i32,
}

/// The first pixel of a row of the rectangle, counted from its top.
#[inline(always)]
pub(crate) fn row_of(rect: Rect, row: usize) -> Pixel
    requires some { IsNotEmpty rect }
    requires low { row < height_of rect }
    ensures across { result.x ≡ rect.left }
    ensures down { result.y ≡ rect.top +ℤ pos row }
{
    Pixel {
        x: i32::from(rect.left),
        y: i32::from(rect.top) + row as i32,
    }
}

/// How many columns there are.
pub(crate) fn width_of(rect: Rect) -> usize
    requires { rect.left ≤ℤ rect.right }
    ensures { result ≡ width_of rect }
{
    (i32::from(rect.right) - i32::from(rect.left) + 1) as usize
}

/// How many rows there are.
pub(crate) fn height_of(rect: Rect) -> usize
    requires { rect.top ≤ℤ rect.bottom }
    ensures { result ≡ height_of rect }
{
    (i32::from(rect.bottom) - i32::from(rect.top) + 1) as usize
}

/// How many pixels there are.
#[tactic(auto, unfolding(crate::specs::Spans::area_of))]
pub(crate) fn area_of(rect: Rect) -> usize
    requires across { rect.left ≤ℤ rect.right }
    requires down { rect.top ≤ℤ rect.bottom }
    ensures { result ≡ area_of rect }
{
    height_of(rect) * width_of(rect)
}

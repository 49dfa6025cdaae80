ghost use Rattle.std.specs.Prelude.{◌≡◌, ℤ, ◌+ℤ◌, ◌-ℤ◌, ◌≤ℤ◌, ◌&&◌, false, IfNone, IfSome};
ghost use Rattle.std.specs.Int.{int_max, int_min};
ghost use Rattle.be_geom.specs.Points.{between};
ghost use Rattle.be_geom.specs.Rects.{rect_has};
ghost use Rattle.be_region.specs.Regions.{IsNotEmpty};
ghost use Rattle.be_shape.specs.Rows.{span_has};
ghost use Rattle.be_descent.specs.Places.{IsBeside, IsPartOf};

use crate::way::Way;
use be_geom::Rect;
use be_shape::Span as Columns;

/// The pixels of an area that a rectangle has, which lies that way. None where it has none.
#[inline(always)]
pub fn part_in(area: Rect, rect: Rect, way: Way) -> Option<Rect>
    ensures none { IfNone result (IsBeside area rect way) }
    ensures some { IfSome result (λ part. IsPartOf part area rect way) }
{
    let (left, right) = common(
        area.left,
        area.right,
        i32::from(rect.left),
        i32::from(rect.right),
        way.right,
    )?;
    let (top, bottom) = common(
        area.top,
        area.bottom,
        i32::from(rect.top),
        i32::from(rect.bottom),
        way.down,
    )?;
    Some(Rect {
        left,
        top,
        right,
        bottom,
    })
}

/// The pixels of an area that are in columns of a run, which lies so far to the right. None where
/// there are none.
#[inline(always)]
pub(crate) fn columns_in(area: Rect, run: Columns, by: i32) -> Option<Rect>
    requires { area.top ≤ℤ area.bottom }
    ensures none { IfNone result ((x y : ℤ)
        → (rect_has area x y && span_has run (x -ℤ by)) ≡ false) }
    ensures some { IfSome result IsNotEmpty }
    ensures both { IfSome result (λ part. (x y : ℤ)
        → rect_has part x y ≡ (rect_has area x y && span_has run (x -ℤ by))) }
{
    let (left, right) = common(area.left, area.right, run.first, run.last, by)?;
    Some(Rect {
        left,
        right,
        ..area
    })
}

/// The first and the last of the coordinates from `low` to `high` that are among those from `first`
/// to `last`, which lie so far on. None where there is none.
#[inline(always)]
pub(crate) fn common(low: i16, high: i16, first: i32, last: i32, by: i32) -> Option<(i16, i16)>
    ensures none { IfNone result ((z : ℤ)
        → (between low z high && between first (z -ℤ by) last) ≡ false) }
    ensures order { IfSome result (λ edges. edges.0 ≤ℤ edges.1) }
    ensures both { IfSome result (λ edges. (z : ℤ) → between edges.0 z edges.1
        ≡ (between low z high && between first (z -ℤ by) last)) }
{
    let (least, most) = edges(low, high, first, last, by);
    if least <= most {
        Some((least as i16, most as i16))
    } else {
        None
    }
}

/// The same, which aren't in order where there is none.
#[inline(always)]
fn edges(low: i16, high: i16, first: i32, last: i32, by: i32) -> (i64, i64)
    ensures least { result.0 ≡ int_max low (first +ℤ by) }
    ensures most { result.1 ≡ int_min high (last +ℤ by) }
{
    let by = i64::from(by);
    let least = i64::from(low).max(i64::from(first) + by);
    let most = i64::from(high).min(i64::from(last) + by);
    (least, most)
}

ghost use Rattle.std.specs.Prelude.{◌≡◌, ℕ, ℤ, pos, ◌≤◌, ◌+ℤ◌, ◌-ℤ◌, ◌*ℤ◌, ◌≤ℤ◌, unsigned_abs};
ghost use Rattle.std.specs.Prelude.{true, ◌↔◌};
ghost use Rattle.std.specs.Int.{int_signum};
ghost use Rattle.be_geom.specs.Points.{between};
ghost use Rattle.be_shape.specs.Rasters.{pen_covers, steps_of, line_at, line_has, IsSteep};
ghost use Rattle.be_shape.specs.Rows.{IsSpan, IsRow, span_has, row_has, swept_has};

use crate::pen::PenSize;
use crate::row::{Row, Span};
use crate::share::{points_within, share};
use crate::steep::Steep;
use be_geom::Point;

/// The columns of a row that a line has.
#[inline(always)]
pub(crate) fn row_of(from: Point, to: Point, pen: PenSize, y: i32) -> Row
    ensures sound { IsRow result }
    ensures pixels { (x : ℤ) → row_has result x ≡ line_has from to pen x y }
{
    if pen.pixels() == 1 && is_steep(from, to) {
        return match (Steep { from, to }).column(y) {
            Some(x) => Row::One(Span { first: x, last: x }),
            None => Row::Empty,
        };
    }
    let steps = steps_of(from, to);
    let (nearest, farthest) = reach(pen, from.y, to.y, y);
    let distance = u64::from(to.y.abs_diff(from.y));
    match points_within(steps, distance, nearest, farthest) {
        Some((first, last)) => Row::One(pen.swept(
            point_at(first, steps, from.x, to.x),
            point_at(last, steps, from.x, to.x),
        )),
        None => Row::Empty,
    }
}

/// Whether a line goes at least as far down or up as across.
pub(crate) fn is_steep(from: Point, to: Point) -> bool
    ensures { (result ≡ true) ↔ IsSteep from to }
{
    to.x.abs_diff(from.x) <= to.y.abs_diff(from.y)
}

/// The rows of a line.
pub(crate) fn rows_of(from: Point, to: Point, pen: PenSize) -> Span
    ensures sound { IsSpan result }
    ensures all { (z : ℤ) → span_has result z ≡ swept_has pen from.y to.y z }
{
    pen.swept(from.y, to.y)
}

/// How many steps a line takes from its first point to its last.
fn steps_of(from: Point, to: Point) -> u64
    ensures value { result ≡ steps_of from to }
    ensures few { result ≤ 65535 }
{
    u64::from(to.x.abs_diff(from.x).max(to.y.abs_diff(from.y)))
}

/// A coordinate of point `i` of a line.
pub(crate) fn point_at(i: u64, steps: u64, from: i16, to: i16) -> i16
    requires of_steps { i ≤ steps }
    requires few { steps ≤ 65535 }
    requires near { unsigned_abs (to -ℤ from) ≤ steps }
    ensures { result ≡ line_at i steps from to }
{
    let far = share(i, steps, u64::from(to.abs_diff(from))) as i32;
    let at = if from <= to {
        i32::from(from) + far
    } else {
        i32::from(from) - far
    };
    at as i16
}

/// How far on the way from one coordinate to another a pen covers a third, at least and at most.
fn reach(pen: PenSize, from: i16, to: i16, z: i32) -> (i64, i64)
    ensures in_order { result.0 ≤ℤ result.1 }
    ensures covers { (t : ℕ) → t ≤ unsigned_abs (to -ℤ from)
        → pen_covers pen (from +ℤ int_signum (to -ℤ from) *ℤ pos t) z
        ≡ between result.0 (pos t) result.1 }
{
    let (before, behind) = pen.sides();
    if from <= to {
        let way = i64::from(z) - i64::from(from);
        (way - i64::from(behind), way + i64::from(before))
    } else {
        let way = i64::from(from) - i64::from(z);
        (way - i64::from(before), way + i64::from(behind))
    }
}

ghost use Rattle.std.specs.Prelude.{◌≡◌, ℤ, ◌≤ℤ◌, false, IfSome, IfNone};
ghost use Rattle.be_shape.specs.Rasters.{frame_has, is_not_empty};
ghost use Rattle.be_shape.specs.Rows.{IsRow, row_has, ArePenRows};

use crate::pen::PenSize;
use crate::row::{self, LAST_ROW, Row, Span};
use be_geom::Rect;

/// The columns of a row that the sides of a rectangle have, drawn with a pen.
pub(crate) fn row_of(rect: Rect, pen: PenSize, y: i32) -> Row
    ensures sound { IsRow result }
    ensures pixels { (x : ℤ) → row_has result x ≡ frame_has rect pen x y }
{
    let Some(rows) = rows_of(rect, pen) else {
        return Row::Empty;
    };
    if !rows.has(y) {
        return Row::Empty;
    }
    let across = pen.swept(rect.left, rect.right);
    if pen.swept(rect.top, rect.top).has(y) || pen.swept(rect.bottom, rect.bottom).has(y) {
        return Row::One(across);
    }
    let left = pen.swept(rect.left, rect.left);
    let right = pen.swept(rect.right, rect.right);
    if left.last + 1 < right.first {
        Row::Two(left, right)
    } else {
        Row::One(across)
    }
}

/// The last row down to which each row of the sides has the columns of this one.
pub(crate) fn alike(rect: Rect, pen: PenSize, y: i32) -> i32
    ensures forward { y ≤ℤ result }
    ensures same { (x z : ℤ) → y ≤ℤ z → z ≤ℤ result
        → frame_has rect pen x z ≡ frame_has rect pen x y }
{
    let Some(rows) = rows_of(rect, pen) else {
        return LAST_ROW;
    };
    let top = pen.swept(rect.top, rect.top);
    let bottom = pen.swept(rect.bottom, rect.bottom);
    rows.alike(y).min(top.alike(y)).min(bottom.alike(y))
}

/// The rows of the sides. None where the rectangle is empty.
pub(crate) fn rows_of(rect: Rect, pen: PenSize) -> Option<Span>
    ensures none { IfNone result (is_not_empty rect ≡ false) }
    ensures some { IfSome result (ArePenRows pen rect) }
{
    row::rows_of(rect)?;
    Some(pen.swept(rect.top, rect.bottom))
}

ghost use Rattle.std.specs.Prelude.{◌≡◌, ℤ, ◌<ℤ◌, ◌≤ℤ◌, false, IfSome, IfNone};
ghost use Rattle.be_geom.specs.Rects.{rect_has};
ghost use Rattle.be_shape.specs.Rasters.{is_not_empty};
ghost use Rattle.be_shape.specs.Rows.{span_has, row_has, IsSpan, IsRow, IsCut, IsNextSpan};
ghost use Rattle.be_shape.specs.Rows.{NoneFrom, AreEdges};

use be_geom::Rect;

/// Where no row follows.
pub(crate) const LAST_ROW: i32 = 2147483647;

/// Columns of a row without a gap, or rows without one; both ends belong to it.
#[derive(Clone, Copy, Debug, PartialEq, Eq)]
pub struct Span {
    pub first: i32,
    pub last: i32,
}

/// The columns of one row that a shape has.
#[derive(Clone, Copy, Debug, PartialEq, Eq)]
pub enum Row {
    /// None at all.
    Empty,
    /// One run.
    One(Span),
    /// Two runs, with a gap between them.
    Two(Span, Span),
}

impl Span {
    pub(crate) fn has(self, z: i32) -> bool
        ensures { result ≡ span_has self z }
    {
        self.first <= z && z <= self.last
    }

    /// The last number from `z` on up to which all are in it, as `z` is, or none is.
    pub(crate) fn alike(self, z: i32) -> i32
        requires { IsSpan self }
        ensures forward { z ≤ℤ result }
        ensures same { (w : ℤ) → z ≤ℤ w → w ≤ℤ result → span_has self w ≡ span_has self z }
    {
        if z < self.first {
            self.first - 1
        } else if z <= self.last {
            self.last
        } else {
            LAST_ROW
        }
    }

    /// What there is of it from a column on.
    fn cut(self, from: i32) -> Option<Span>
        ensures none { IfNone result (self.last <ℤ from) }
        ensures some { IfSome result (IsCut self from) }
    {
        if self.last < from {
            return None;
        }
        Some(Span {
            first: self.first.max(from),
            last: self.last,
        })
    }
}

impl Row {
    pub(crate) fn has(self, x: i32) -> bool
        ensures { result ≡ row_has self x }
    {
        match self {
            Row::Empty => false,
            Row::One(run) => run.has(x),
            Row::Two(left, right) => left.has(x) || right.has(x),
        }
    }

    /// The first run from a column on, cut to the columns from there on.
    pub(crate) fn next_from(self, from: i32) -> Option<Span>
        requires { IsRow self }
        ensures none { IfNone result (NoneFrom (row_has self) from) }
        ensures some { IfSome result (IsNextSpan (row_has self) from) }
    {
        match self {
            Row::Empty => None,
            Row::One(run) => run.cut(from),
            Row::Two(left, right) => {
                if from <= left.last {
                    left.cut(from)
                } else {
                    right.cut(from)
                }
            }
        }
    }
}

/// The columns of a row that a rectangle has.
pub(crate) fn row_of(rect: Rect, y: i32) -> Row
    ensures sound { IsRow result }
    ensures pixels { (x : ℤ) → row_has result x ≡ rect_has rect x y }
{
    let Some(rows) = rows_of(rect) else {
        return Row::Empty;
    };
    if !rows.has(y) {
        return Row::Empty;
    }
    Row::One(Span {
        first: i32::from(rect.left),
        last: i32::from(rect.right),
    })
}

/// The last row down to which each row of a rectangle has the columns of this one.
pub(crate) fn alike(rect: Rect, y: i32) -> i32
    ensures forward { y ≤ℤ result }
    ensures same { (x z : ℤ) → y ≤ℤ z → z ≤ℤ result → rect_has rect x z ≡ rect_has rect x y }
{
    match rows_of(rect) {
        Some(rows) => rows.alike(y),
        None => LAST_ROW,
    }
}

/// The rows of a rectangle. None where it is empty.
pub(crate) fn rows_of(rect: Rect) -> Option<Span>
    ensures none { IfNone result (is_not_empty rect ≡ false) }
    ensures some { IfSome result (AreEdges rect) }
{
    if rect.is_empty() {
        return None;
    }
    Some(Span {
        first: i32::from(rect.top),
        last: i32::from(rect.bottom),
    })
}

ghost use Rattle.std.specs.Prelude.{◌≡◌, ◌+ℤ◌, ◌↔◌, false, IsTrue, IsNone, IfSome, IsErr, IfOk};
ghost use Rattle.be_geom.specs.Points.{in_range, between};
ghost use Rattle.be_geom.specs.Rects.{rect_has, rect_fits, moved_rect, HasNoPixel, HasPixelsOfBoth};
ghost use Rattle.be_geom.specs.Rects.{AreDisjoint};

use crate::point::{OutOfRange, Point};

/// The pixels between four edges, which belong to it: `BRect` in whole numbers.
///
/// It is empty where its right edge is left of its left one, or its bottom edge above its top one.
#[derive(Clone, Copy, Debug, PartialEq, Eq)]
pub struct Rect {
    /// The first column.
    pub left: i16,
    /// The first row.
    pub top: i16,
    /// The last column.
    pub right: i16,
    /// The last row.
    pub bottom: i16,
}

impl Rect {
    /// Whether the point is one of the pixels: `BRect::Contains`.
    pub fn contains(self, p: Point) -> bool
        ensures { result ≡ rect_has self p.x p.y }
    {
        is_between(self.left, p.x, self.right) && is_between(self.top, p.y, self.bottom)
    }

    /// Whether there is no pixel: the opposite of `BRect::IsValid`.
    pub fn is_empty(self) -> bool
        ensures { IsTrue result ↔ HasNoPixel self }
    {
        self.right < self.left || self.bottom < self.top
    }

    /// The pixels of both: the operator `&` of `BRect`. None where no pixel is in both.
    pub fn intersect(self, other: Rect) -> Option<Rect>
        ensures none { IsNone result ↔ AreDisjoint self other }
        ensures both { IfSome result (λ r. HasPixelsOfBoth r self other) }
    {
        let both = self.inner_edges(other);
        if both.is_empty() { None } else { Some(both) }
    }

    fn inner_edges(self, other: Rect) -> Rect
        ensures { HasPixelsOfBoth result self other }
    {
        Rect {
            left: self.left.max(other.left),
            top: self.top.max(other.top),
            right: self.right.min(other.right),
            bottom: self.bottom.min(other.bottom),
        }
    }

    /// Its pixels, each `dx` further right and `dy` further down: `BRect::OffsetByCopy`.
    pub fn offset(self, dx: i32, dy: i32) -> Result<Rect, OutOfRange>
        ensures moved { IfOk result (λ r. r ≡ moved_rect self dx dy) }
        ensures out { IsErr result ↔ (rect_fits (moved_rect self dx dy) ≡ false) }
    {
        Ok(Rect {
            left: moved(self.left, dx)?,
            top: moved(self.top, dy)?,
            right: moved(self.right, dx)?,
            bottom: moved(self.bottom, dy)?,
        })
    }
}

fn is_between(low: i16, z: i16, high: i16) -> bool
    ensures { result ≡ between low z high }
{
    low <= z && z <= high
}

fn moved(edge: i16, by: i32) -> Result<i16, OutOfRange>
    ensures moved { IfOk result (λ z. z ≡ edge +ℤ by) }
    ensures out { IsErr result ↔ (in_range (edge +ℤ by) ≡ false) }
{
    i16::try_from(i64::from(edge) + i64::from(by)).map_err(|_| OutOfRange)
}

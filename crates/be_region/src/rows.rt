ghost use Rattle.std.specs.Prelude.{◌≡◌, ℤ, ◌+ℤ◌, ◌≤ℤ◌, ◌<ℤ◌, ◌≤◌, ◌<◌, ◌⊎◌, pos, negsuc, false};
ghost use Rattle.std.specs.Prelude.{[], All, IsTrue, ◌↔◌, length, take, slice_index_or};
ghost use Rattle.std.specs.List.{AllPairs};
ghost use Rattle.be_region.specs.Regions.{region_has, IsNotEmpty};
ghost use Rattle.be_region.specs.Bands.{IsBefore};
ghost use Rattle.be_geom.specs.declared.rect.Rect.{Rect};
ghost use Rattle.be_region.specs.Rows.{line_has, IsLine, AreFrom};

use be_geom::Rect;
use std::marker::Model;

/// The row below all others, where there is no further band.
const NO_ROW: i32 = 32768;

/// The bands of a region from some row on.
#[derive(Drop)]
pub(crate) struct Rows<'a> {
    /// The first band, in the rows from `top` to `bottom`.
    band: &'a [Rect],
    rest: &'a [Rect],
    top: i32,
    bottom: i32,
}

impl<'a> Model for Rows<'a> {
    ghost use Rattle.std.specs.Prelude.{List, ◌++◌};
    ghost use Rattle.be_geom.specs.declared.rect.Rect.{Rect};
    ghost use Rattle.be_region.specs.Rows.{IsRows};

    ghost Value = { List Rect };

    ghost view = { λ r. r.band.now ++ r.rest.now };

    ghost invariant = { λ r. IsRows r.band.now r.rest.now r.top r.bottom };
}

impl<'a> Rows<'a> {
    pub(crate) fn new(rects: &'a [Rect]) -> Rows<'a>
        requires none_empty { All IsNotEmpty rects.now }
        requires in_order { AllPairs IsBefore rects.now }
        ensures { result ≡ rects.now }
    {
        match rects.split_first() {
            Some((first, _)) => {
                let count = band_len(rects, first.top);
                Rows {
                    band: &rects[..count],
                    rest: &rects[count..],
                    top: i32::from(first.top),
                    bottom: i32::from(first.bottom),
                }
            }
            None => Rows {
                band: rects,
                rest: rects,
                top: NO_ROW,
                bottom: NO_ROW,
            },
        }
    }

    pub(crate) fn is_over(&self) -> bool
        ensures { IsTrue result ↔ (self.now ≡ []) }
    {
        self.band.is_empty()
    }

    /// A row above which there is no pixel.
    pub(crate) fn first_row(&self) -> i32
        ensures low { negsuc 32767 ≤ℤ result }
        ensures high { result ≤ℤ pos 32768 }
        ensures from { AreFrom result self.now }
        ensures none { (x y : ℤ) → y <ℤ result → region_has self.now x y ≡ false }
    {
        self.top
    }

    /// The columns of a row that isn't below the first band.
    pub(crate) fn line(&self, y: i32) -> &'a [Rect]
        requires { AreFrom y self.now }
        ensures line { IsLine result.now }
        ensures columns { (x : ℤ) → line_has result.now x ≡ region_has self.now x y }
    {
        if self.top <= y {
            self.band
        } else {
            &self.band[..0]
        }
    }

    /// The last row with the same columns as a row that isn't below the first band.
    pub(crate) fn last_row(&self, y: i32) -> i32
        requires from { AreFrom y self.now }
        requires high { y ≤ℤ pos 32768 }
        ensures low { y ≤ℤ result }
        ensures high { (result ≤ℤ pos 32767) ⊎ (self.now ≡ []) }
        ensures ends { AreFrom result self.now }
        ensures same { (x z : ℤ) → y ≤ℤ z → z ≤ℤ result
            → region_has self.now x z ≡ region_has self.now x y }
    {
        if self.top <= y {
            self.bottom
        } else {
            self.top - 1
        }
    }

    /// The bands below a row of the first band, or above it.
    pub(crate) fn below(self, y: i32) -> Rows<'a>
        requires { AreFrom y self }
        ensures from { AreFrom (y +ℤ pos 1) result }
        ensures same { (x z : ℤ) → y <ℤ z → region_has result x z ≡ region_has self.entry x z }
    {
        if self.bottom <= y {
            Rows::new(self.rest)
        } else {
            self
        }
    }
}

/// Whether neither has a further band.
pub(crate) fn are_over(one: &Rows<'_>, other: &Rows<'_>) -> bool
    ensures { IsTrue result ↔ ((one.now ≡ []) × (other.now ≡ [])) }
{
    one.is_over() && other.is_over()
}

/// The last row with the same columns as a row, in both.
pub(crate) fn last_row_of_both(one: &Rows<'_>, other: &Rows<'_>, y: i32) -> i32
    requires one { AreFrom y one.now }
    requires other { AreFrom y other.now }
    requires high { y ≤ℤ pos 32768 }
    requires further { (one.now ≡ []) × (other.now ≡ []) → ⊥ }
    ensures low { y ≤ℤ result }
    ensures high { result ≤ℤ pos 32767 }
    ensures one_ends { AreFrom result one.now }
    ensures other_ends { AreFrom result other.now }
    ensures one_same { (x z : ℤ) → y ≤ℤ z → z ≤ℤ result
        → region_has one.now x z ≡ region_has one.now x y }
    ensures other_same { (x z : ℤ) → y ≤ℤ z → z ≤ℤ result
        → region_has other.now x z ≡ region_has other.now x y }
{
    one.last_row(y).min(other.last_row(y))
}

/// How many of the rectangles, from the first on, have their first row at `top`.
fn band_len(rects: &[Rect], top: i16) -> usize
    ensures within { result ≤ length rects.now }
    ensures same { All (λ r. r.top ≡ top) (take result rects.now) }
    ensures other { (d : Rect) → result < length rects.now
        → (slice_index_or rects.now result d).top ≡ top → ⊥ }
{
    for (place, rect) in rects.iter().enumerate() {
        if rect.top != top {
            return place;
        }
    }
    rects.len()
}

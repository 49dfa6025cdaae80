ghost use Rattle.std.specs.Prelude.{◌≡◌, ◌-◌, ◌/◌, ◌≤◌, ◌≤ℤ◌, ℤ, pos, ◌+ℤ◌, ◌-ℤ◌};
ghost use Rattle.std.specs.Int.{int_min, int_max};
ghost use Rattle.std.specs.Option.{SomeIff};
ghost use Rattle.be_shape.specs.Rows.{IsSpan, span_has, swept_has};

use crate::row::Span;
use std::marker::Model;

/// How many pixels wide and high a pen is, 1 to 32: what `BView::SetPenSize` takes.
#[derive(Clone, Copy, Debug, PartialEq, Eq)]
pub struct PenSize {
    pixels: u8,
}

impl Model for PenSize {
    ghost use Rattle.std.specs.Prelude.{ℕ, ◌≤◌};

    ghost Value = { ℕ };

    ghost view = { λ pen. pen.pixels };

    ghost invariant = { λ pen. (1 ≤ pen.pixels) × (pen.pixels ≤ 32) };

    ghost inverse = { λ pixels. record { pixels = pixels } };
}

impl PenSize {
    /// The pen of so many pixels. None for 0 and for more than 32.
    pub fn new(pixels: u8) -> Option<PenSize>
        ensures { SomeIff result ((1 ≤ pixels) × (pixels ≤ 32)) pixels }
    {
        if pixels < 1 || pixels > 32 {
            return None;
        }
        Some(PenSize { pixels })
    }

    /// How many pixels wide and high it is: `BView::PenSize`.
    pub fn pixels(self) -> u8
        ensures value { result ≡ self }
        ensures least { 1 ≤ result }
        ensures most { result ≤ 32 }
    {
        self.pixels
    }

    /// How many pixels the pen covers before a coordinate, and how many behind it.
    pub(crate) fn sides(self) -> (i32, i32)
        ensures before { result.0 ≡ pos ((self - 1) / 2) }
        ensures behind { result.1 ≡ pos (self - 1 - (self - 1) / 2) }
        ensures few { (result.0 ≤ℤ pos 15) × (result.1 ≤ℤ pos 16) }
    {
        let before = (self.pixels - 1) / 2;
        let behind = self.pixels - 1 - before;
        (i32::from(before), i32::from(behind))
    }

    /// What the pen covers at a coordinate, at another, and at all those between them.
    pub(crate) fn swept(self, a: i16, b: i16) -> Span
        ensures sound { IsSpan result }
        ensures first { result.first ≡ int_min a b -ℤ pos ((self - 1) / 2) }
        ensures last { result.last ≡ int_max a b +ℤ pos (self - 1 - (self - 1) / 2) }
        ensures all { (z : ℤ) → span_has result z ≡ swept_has self a b z }
    {
        let (before, behind) = self.sides();
        Span {
            first: i32::from(a.min(b)) - before,
            last: i32::from(a.max(b)) + behind,
        }
    }
}

ghost use Rattle.std.specs.Prelude.{◌≡◌, ◌<◌, ◌≤◌, ℕ, ℤ, pos, ◌+ℤ◌, Bool, Some, true};
ghost use Rattle.std.specs.Prelude.{[], ◌∷◌, length, slice_get};
ghost use Rattle.be_geom.specs.Rects.{rect_has};
ghost use Rattle.be_region.specs.Regions.{IsNotEmpty, region_has};
ghost use Rattle.be_span.specs.declared.Cell.{Cell};
ghost use Rattle.be_span.specs.Painting.{IsPainted};
ghost use Rattle.be_span.specs.Spans.{area_of, block};

use crate::Cell;
use crate::block::write_in;
use crate::places::{height_of, row_of, width_of};
use be_geom::Rect;

/// What is written in the place of cells.
pub trait Write {
    /// The new cell of a pixel.
    ghost cell: { Self → ℤ → ℤ → Cell };

    /// Of which pixels it has one: no others are handed to it.
    ghost knows: { Self → ℤ → ℤ → Bool };

    /// Writes it for pixels side by side in a row of the screen, from (x, y) on to the right.
    fn write(&self, cells: &mut [Cell], x: i32, y: i32)
        requires some { 0 < length cells.old }
        requires known { (k : ℕ) → k < length cells.old → knows self.now (x +ℤ pos k) y ≡ true }
        ensures len { length cells.new ≡ length cells.old }
        ensures cells { (k : ℕ) → k < length cells.old
            → slice_get cells.new k ≡ Some (cell self.now (x +ℤ pos k) y) };
}

/// The same cell for each pixel.
#[derive(Clone, Copy, Debug, PartialEq, Eq)]
pub struct Alike {
    pub cell: Cell,
}

impl Write for Alike {
    ghost cell = { λ s x y. s.cell };

    ghost knows = { λ s x y. true };

    fn write(&self, cells: &mut [Cell], _x: i32, _y: i32) {
        cells.fill(self.cell);
    }
}

/// Writes for the pixels of a rectangle that are all in another, row by row, in cells that begin
/// with those of the other.
#[inline(always)]
pub(crate) fn write_rows<W: Write>(cells: &mut [Cell], frame: Rect, part: Rect, write: &W)
    requires full { IsNotEmpty frame }
    requires fits { area_of frame ≤ length cells.old }
    requires some { IsNotEmpty part }
    requires inside { (x y : ℤ) → rect_has part x y ≡ true
        → region_has (frame ∷ []) x y ≡ true }
    requires known { (x y : ℤ) → rect_has part x y ≡ true → W.knows write.now x y ≡ true }
    ensures len { length cells.new ≡ length cells.old }
    ensures painted { IsPainted (λ x y c. W.cell write.now x y) (rect_has part)
        (block frame cells.old) (block frame cells.new) }
{
    let width = width_of(part);
    for row in 0..height_of(part) {
        let first = row_of(part, row);
        write_in(cells, frame, first.x, first.y, width, write);
    }
}

ghost use Rattle.std.specs.Prelude.{◌≡◌, ◌+◌, ◌<◌, ◌≤◌, ◌^◌, ℕ, ℤ, pos, ◌+ℤ◌, Bool, ◌&&◌, true};
ghost use Rattle.std.specs.Prelude.{[], ◌∷◌, length, slice_get, count_by};
ghost use Rattle.std.specs.Option.{option_map};
ghost use Rattle.be_geom.specs.Rects.{rect_has};
ghost use Rattle.be_region.specs.Regions.{IsNotEmpty, region_has};
ghost use Rattle.be_span.specs.declared.Cell.{Cell};
ghost use Rattle.be_span.specs.Painting.{changed, AreInRange, IsPainted};
ghost use Rattle.be_span.specs.Spans.{area_of, block};

use crate::Cell;
use crate::block::alter_in;
use crate::places::{height_of, row_of, width_of};
use be_geom::Rect;

/// What becomes of pixels, of their colours and of their marks.
pub trait Alter {
    /// What becomes of the cell of a pixel.
    ghost rule: { Self → ℤ → ℤ → Cell → Cell };

    /// At which pixels.
    ghost at: { Self → ℤ → ℤ → Bool };

    /// Of which it knows what becomes of them: no others are handed to it.
    ghost knows: { Self → ℤ → ℤ → Bool };

    /// Does so to pixels side by side in a row of the screen, from (x, y) on to the right. How many
    /// cells are dirty in the whole buffer is told and given back.
    fn alter(&self, cells: &mut [Cell], x: i32, y: i32, dirty: usize) -> usize
        requires range { AreInRange x y (length cells.old) }
        requires known { (k : ℕ) → k < length cells.old → knows self.now (x +ℤ pos k) y ≡ true }
        requires among { count_by (λ c. c.dirty) cells.old ≤ dirty }
        requires few { dirty < 2 ^ 63 }
        ensures cells { (k : ℕ) → slice_get cells.new k
            ≡ option_map (changed (rule self.now) (at self.now) (x +ℤ pos k) y)
            (slice_get cells.old k) }
        ensures counted { result + count_by (λ c. c.dirty) cells.old
            ≡ dirty + count_by (λ c. c.dirty) cells.new };
}

/// Alters the pixels of a rectangle that are all in another, row by row, in cells that begin with
/// those of the other. How many of all are dirty is told and given back.
#[inline(always)]
pub(crate) fn alter_rows<A: Alter>(
    cells: &mut [Cell],
    frame: Rect,
    rect: Rect,
    alter: &A,
    dirty: usize,
) -> usize
    requires full { IsNotEmpty frame }
    requires fits { area_of frame ≤ length cells.old }
    requires some { IsNotEmpty rect }
    requires inside { (x y : ℤ) → rect_has rect x y ≡ true
        → region_has (frame ∷ []) x y ≡ true }
    requires known { (x y : ℤ) → rect_has rect x y ≡ true → A.knows alter.now x y ≡ true }
    requires counted { dirty ≡ count_by (λ c. c.dirty) cells.old }
    ensures len { length cells.new ≡ length cells.old }
    ensures painted { IsPainted (A.rule alter.now) (λ x y. rect_has rect x y && A.at alter.now x y)
        (block frame cells.old) (block frame cells.new) }
    ensures counted { result ≡ count_by (λ c. c.dirty) cells.new }
{
    let width = width_of(rect);
    let mut left = dirty;
    for row in 0..height_of(rect) {
        let first = row_of(rect, row);
        left = alter_in(cells, frame, first.x, first.y, width, alter, left);
    }
    left
}

ghost use Rattle.std.specs.Prelude.{◌≡◌, ◌<◌, ◌≤◌, ℕ, ℤ, pos, ◌+ℤ◌, true, [], ◌∷◌};
ghost use Rattle.std.specs.Prelude.{length, slice_get, count_by};
ghost use Rattle.std.specs.Option.{option_map};
ghost use Rattle.be_region.specs.Regions.{IsNotEmpty};
ghost use Rattle.be_span.specs.Painting.{changed};
ghost use Rattle.be_span.specs.Runs.{HasRun, IsBeside};
ghost use Rattle.be_span.specs.Spans.{area_of, block, cell_in};

use crate::Cell;
use crate::alter::Alter;
use crate::places::start_of;
use crate::rows::alter_part;
use crate::write::Write;
use be_geom::Rect;

/// The cells of the `count` pixels from (x, y) on to the right, of cells that begin with those of a
/// rectangle.
#[inline(always)]
pub(crate) fn row_in(cells: &[Cell], frame: Rect, x: i32, y: i32, count: usize) -> &[Cell]
    requires full { IsNotEmpty frame }
    requires fits { area_of frame ≤ length cells.now }
    requires some { 0 < count }
    requires run { HasRun (frame ∷ []) x y count }
    ensures len { length result.now ≡ count }
    ensures cells { (k : ℕ) → k < count
        → cell_in (block frame cells.now) (x +ℤ pos k) y ≡ slice_get result.now k }
{
    let start = start_of(frame, x, y, count);
    &cells[start..start + count]
}

/// Alters the `count` pixels from (x, y) on to the right. How many of all are dirty is told and
/// given back.
#[inline(always)]
pub(crate) fn alter_in<A: Alter>(
    cells: &mut [Cell],
    frame: Rect,
    x: i32,
    y: i32,
    count: usize,
    alter: &A,
    dirty: usize,
) -> usize
    requires full { IsNotEmpty frame }
    requires fits { area_of frame ≤ length cells.old }
    requires some { 0 < count }
    requires run { HasRun (frame ∷ []) x y count }
    requires known { (k : ℕ) → k < count → A.knows alter.now (x +ℤ pos k) y ≡ true }
    requires counted { dirty ≡ count_by (λ c. c.dirty) cells.old }
    ensures len { length cells.new ≡ length cells.old }
    ensures altered { (k : ℕ) → k < count → cell_in (block frame cells.new) (x +ℤ pos k) y
        ≡ option_map (changed (A.rule alter.now) (A.at alter.now) (x +ℤ pos k) y)
        (cell_in (block frame cells.old) (x +ℤ pos k) y) }
    ensures others { (z w : ℤ) → IsBeside x y count z w
        → cell_in (block frame cells.new) z w ≡ cell_in (block frame cells.old) z w }
    ensures counted { result ≡ count_by (λ c. c.dirty) cells.new }
{
    let start = start_of(frame, x, y, count);
    alter_part(cells, start, count, x, y, alter, dirty)
}

/// Writes for the `count` pixels from (x, y) on to the right.
#[inline(always)]
pub(crate) fn write_in<W: Write>(
    cells: &mut [Cell],
    frame: Rect,
    x: i32,
    y: i32,
    count: usize,
    write: &W,
)
    requires full { IsNotEmpty frame }
    requires fits { area_of frame ≤ length cells.old }
    requires some { 0 < count }
    requires run { HasRun (frame ∷ []) x y count }
    requires known { (k : ℕ) → k < count → W.knows write.now (x +ℤ pos k) y ≡ true }
    ensures len { length cells.new ≡ length cells.old }
    ensures written { (k : ℕ) → k < count → cell_in (block frame cells.new) (x +ℤ pos k) y
        ≡ option_map (λ c. W.cell write.now (x +ℤ pos k) y)
        (cell_in (block frame cells.old) (x +ℤ pos k) y) }
    ensures others { (z w : ℤ) → IsBeside x y count z w
        → cell_in (block frame cells.new) z w ≡ cell_in (block frame cells.old) z w }
{
    let start = start_of(frame, x, y, count);
    write.write(&mut cells[start..start + count], x, y);
}

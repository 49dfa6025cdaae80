ghost use Rattle.std.specs.Prelude.{◌≡◌, ◌<◌, ◌≤◌, ◌+◌, ◌⊎◌, ℕ, pos, ◌+ℤ◌, true, length, map};
ghost use Rattle.std.specs.Prelude.{slice_get, count_by};
ghost use Rattle.be_span.specs.Cells.{unmarked};
ghost use Rattle.be_span.specs.Painting.{changed, AreInRange, IsPartDone};

use crate::Cell;
use crate::alter::Alter;
use crate::paint::Paint;

/// Writes over the cells from `start` on, by a row of which `more` are dirty. How many of all are
/// dirty is told and given back.
pub(crate) fn overwrite(
    cells: &mut [Cell],
    start: usize,
    row: &[Cell],
    more: usize,
    dirty: usize,
) -> usize
    requires fits { start + length row.now ≤ length cells.old }
    requires more { more ≡ count_by (λ c. c.dirty) row.now }
    requires counted { dirty ≡ count_by (λ c. c.dirty) cells.old }
    ensures len { length cells.new ≡ length cells.old }
    ensures inside { (k : ℕ) → k < length row.now
        → slice_get cells.new (start + k) ≡ slice_get row.now k }
    ensures others { (q : ℕ) → (q < start) ⊎ (start + length row.now ≤ q)
        → slice_get cells.new q ≡ slice_get cells.old q }
    ensures counted { result ≡ count_by (λ c. c.dirty) cells.new }
{
    let end = start + row.len();
    let lost = dirty_of(&cells[start..end], dirty);
    cells[start..end].copy_from_slice(row);
    dirty - lost + more
}

/// Paints `count` cells from `start` on, those of the pixels from (x, y) on to the right.
#[inline(always)]
pub fn paint_part<P: Paint>(
    cells: &mut [Cell],
    start: usize,
    count: usize,
    x: i32,
    y: i32,
    paint: &P,
    clean: bool,
)
    requires fits { start + count ≤ length cells.old }
    requires range { AreInRange x y count }
    requires clean { clean ≡ true → count_by (λ c. c.dirty) cells.old ≡ 0 }
    ensures len { length cells.new ≡ length cells.old }
    ensures part { IsPartDone (λ k. changed (P.rule paint.now) (P.at paint.now) (x +ℤ pos k) y)
        cells.old cells.new start count }
    ensures marks { count_by (λ c. c.dirty) cells.new ≡ count_by (λ c. c.dirty) cells.old }
{
    paint.paint(&mut cells[start..start + count], x, y, clean);
}

/// Alters `count` cells from `start` on, those of the pixels from (x, y) on to the right. How many
/// of all are dirty is told and given back.
#[inline(always)]
pub(crate) fn alter_part<A: Alter>(
    cells: &mut [Cell],
    start: usize,
    count: usize,
    x: i32,
    y: i32,
    alter: &A,
    dirty: usize,
) -> usize
    requires fits { start + count ≤ length cells.old }
    requires range { AreInRange x y count }
    requires known { (k : ℕ) → k < count → A.knows alter.now (x +ℤ pos k) y ≡ true }
    requires counted { dirty ≡ count_by (λ c. c.dirty) cells.old }
    ensures len { length cells.new ≡ length cells.old }
    ensures part { IsPartDone (λ k. changed (A.rule alter.now) (A.at alter.now) (x +ℤ pos k) y)
        cells.old cells.new start count }
    ensures counted { result ≡ count_by (λ c. c.dirty) cells.new }
{
    alter.alter(&mut cells[start..start + count], x, y, dirty)
}

/// How many of some cells are dirty, where so many of all are: if none is, no cell is looked at.
pub(crate) fn dirty_of(some: &[Cell], dirty: usize) -> usize
    requires { dirty ≡ 0 → count_by (λ c. c.dirty) some.now ≡ 0 }
    ensures { result ≡ count_by (λ c. c.dirty) some.now }
{
    if dirty == 0 { 0 } else { dirty_among(some) }
}

/// How many of the cells are dirty.
pub fn dirty_among(cells: &[Cell]) -> usize
    ensures { result ≡ count_by (λ c. c.dirty) cells.now }
{
    let mut count = 0;
    for cell in cells {
        count += usize::from(cell.dirty);
    }
    count
}

/// Takes the marks of all cells away.
pub fn unmark_all(cells: &mut [Cell])
    ensures { cells.new ≡ map unmarked cells.old }
{
    for cell in cells.iter_mut() {
        *cell = unmarked(*cell);
    }
}

/// The cell without a mark. It is stored as a whole, so that many cells are at once.
#[inline(always)]
fn unmarked(cell: Cell) -> Cell
    ensures { result ≡ unmarked cell }
{
    Cell {
        rgb: cell.rgb,
        dirty: false,
    }
}

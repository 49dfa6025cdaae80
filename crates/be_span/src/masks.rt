ghost use Rattle.std.specs.Prelude.{◌≡◌, ℕ, true, false, slice_get, count_by, if◌then◌else◌};
ghost use Rattle.std.specs.Option.{option_map};
ghost use Rattle.be_color.specs.declared.colors.Color.TheVariants.{Solid, Clear};
ghost use Rattle.be_span.specs.Slices.{has_bit_from, mask_bit, painted, plain};

use crate::Cell;
use crate::brush::Brush;
use crate::cells::painted;
use be_color::{Color, Rgb};

/// Paints each cell whose bit of the mask is set with a colour. The highest bit is for the cell at
/// `from`, and cells behind its 64th have none. It takes a few steps for each set bit. In Copy and
/// in Over no cell is read where it is told that none is dirty.
#[inline(always)]
pub fn paint_marked(
    cells: &mut [Cell],
    from: usize,
    brush: Brush,
    color: Color,
    mask: u64,
    clean: bool,
)
    requires { clean ≡ true → count_by (λ c. c.dirty) cells.old ≡ 0 }
    ensures cells { (k : ℕ) → slice_get cells.new k
        ≡ option_map (painted brush (if has_bit_from from mask k then color else Clear))
        (slice_get cells.old k) }
    ensures marks { count_by (λ c. c.dirty) cells.new ≡ count_by (λ c. c.dirty) cells.old }
{
    if let Color::Solid(rgb) = color {
        if from < cells.len() {
            mark_each(&mut cells[from..], brush, rgb, mask, clean);
        }
    }
}

/// The same with a colour that isn't transparent, from the first cell on.
#[inline(always)]
fn mark_each(cells: &mut [Cell], brush: Brush, rgb: Rgb, mask: u64, clean: bool)
    requires { clean ≡ true → count_by (λ c. c.dirty) cells.old ≡ 0 }
    ensures cells { (k : ℕ) → slice_get cells.new k
        ≡ option_map (painted brush (if mask_bit mask k then Solid rgb else Clear))
        (slice_get cells.old k) }
    ensures marks { count_by (λ c. c.dirty) cells.new ≡ count_by (λ c. c.dirty) cells.old }
{
    if clean && brush.replaces() {
        put_each(cells, mask, Cell { rgb, dirty: false });
    } else {
        paint_each(cells, brush, rgb, mask);
    }
}

/// The same, from the last set bit to the first.
fn paint_each(cells: &mut [Cell], brush: Brush, rgb: Rgb, mask: u64)
    ensures { (k : ℕ) → slice_get cells.new k
        ≡ option_map (painted brush (if mask_bit mask k then Solid rgb else Clear))
        (slice_get cells.old k) }
{
    let Brush { mode, high, low } = brush;
    let mut rest = mask;
    'bits: while rest != 0 {
        let place = 63 - rest.trailing_zeros() as usize;
        if place < cells.len() {
            cells[place] = painted(cells[place], mode, rgb, high, low);
        }
        rest &= rest - 1;
    }
}

/// Puts a clean cell in the place of each whose bit is set, where no cell is dirty. The new one is
/// stored as a whole.
#[inline(always)]
fn put_each(cells: &mut [Cell], mask: u64, cell: Cell)
    requires new { cell.dirty ≡ false }
    requires clean { count_by (λ c. c.dirty) cells.old ≡ 0 }
    ensures { (k : ℕ) → slice_get cells.new k
        ≡ option_map (painted plain (if mask_bit mask k then Solid cell.rgb else Clear))
        (slice_get cells.old k) }
{
    let mut rest = mask;
    'bits: while rest != 0 {
        let place = 63 - rest.trailing_zeros() as usize;
        if place < cells.len() {
            cells[place] = cell;
        }
        rest &= rest - 1;
    }
}

ghost use Rattle.std.specs.Prelude.{◌≡◌, ℕ, ℤ, true, false, Some, length, slice_get};
ghost use Rattle.std.specs.Option.{option_map};
ghost use Rattle.be_region.specs.Regions.{region_has};
ghost use Rattle.be_span.specs.Spans.{cell_in, is_dirty};
ghost use Rattle.be_descent.specs.Pieces.{put_cell};

use be_color::Color;
use be_span::{Alter, Cell, Piece, dirty_among};

/// Each pixel of a piece gets the colour that was read for it, or is exposed where none was.
#[derive(Drop)]
pub struct Put<'a> {
    pub piece: &'a Piece,
    /// Whether one was read for each.
    pub whole: bool,
    /// In which colour pixels are exposed.
    pub color: Color,
    pub ghost read: { whole ≡ true → (x y : ℤ) → is_dirty (cell_in piece.now x y) ≡ false },
}

impl Alter for Put<'_> {
    ghost rule = { λ s x y. put_cell s.color (cell_in s.piece.now x y) };

    ghost at = { λ s x y. true };

    ghost knows = { λ s x y. region_has s.piece.now.rects x y };

    #[inline(always)]
    fn alter(&self, cells: &mut [Cell], x: i32, y: i32, dirty: usize) -> usize {
        if cells.is_empty() {
            return dirty;
        }
        let row = self.piece.row(x, y, cells.len());
        if self.whole && dirty == 0 {
            cells.copy_from_slice(row);
            return dirty;
        }
        let lost = dirty_among(cells);
        put_each(cells, row, self.color);
        dirty - lost + dirty_among(cells)
    }
}

/// Gives each cell the colour of the one of a row, or exposes it where that one is dirty.
fn put_each(cells: &mut [Cell], row: &[Cell], color: Color)
    requires { length row.now ≡ length cells.old }
    ensures { (k : ℕ) → slice_get cells.new k
        ≡ option_map (put_cell color (slice_get row.now k)) (slice_get cells.old k) }
{
    let mut place = 0;
    for cell in cells.iter_mut() {
        *cell = put_on(*cell, row[place], color);
        place += 1;
    }
}

/// A cell with the colour of another one, or exposed where that one is dirty.
#[inline(always)]
fn put_on(cell: Cell, read: Cell, color: Color) -> Cell
    ensures { result ≡ put_cell color (Some read) cell }
{
    if !read.dirty {
        return Cell {
            rgb: read.rgb,
            dirty: cell.dirty,
        };
    }
    let rgb = match color {
        Color::Solid(rgb) => rgb,
        Color::Clear => cell.rgb,
    };
    Cell { rgb, dirty: true }
}

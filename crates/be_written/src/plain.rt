//! How far cells of one colour lie side by side.
ghost use Rattle.std.specs.Prelude.{◌≡◌, ◌<◌, ◌≤◌, true, length, Some};
ghost use Rattle.be_color.specs.declared.colors.Rgb.{Rgb};
ghost use Rattle.be_written.specs.Screens.{AreColored, rgb_at, tone};

use be_color::Rgb;
use be_span::Cell;

/// How many cells are compared without a branch between them.
const BLOCK: usize = 16;

/// The place behind the cells from this one on that have its colour.
pub(crate) fn run_end(cells: &[Cell], place: usize) -> usize
    requires { place < length cells.now }
    ensures begins { place < result }
    ensures ends { result ≤ length cells.now }
    ensures colored { (rgb : Rgb) → rgb_at cells.now place ≡ Some rgb
        → AreColored cells.now place result rgb }
{
    let rgb = cells[place].rgb;
    let mut end = blocks_end(cells, place, rgb);
    while end < cells.len() && cells[end].rgb == rgb {
        end += 1;
    }
    end
}

/// The place behind the whole blocks of this colour that follow the cell of this colour.
fn blocks_end(cells: &[Cell], place: usize, rgb: Rgb) -> usize
    requires place { place < length cells.now }
    requires rgb { rgb_at cells.now place ≡ Some rgb }
    ensures begins { place < result }
    ensures ends { result ≤ length cells.now }
    ensures colored { AreColored cells.now place result rgb }
{
    let mut end = place + 1;
    while cells.len() - end >= BLOCK
        && cells[end].rgb == rgb
        && is_plain(&cells[end..end + BLOCK], rgb)
    {
        end += BLOCK;
    }
    end
}

/// Whether all cells have this colour. No cell decides alone, so several are compared at once.
fn is_plain(cells: &[Cell], rgb: Rgb) -> bool
    ensures { result ≡ true → AreColored cells.now 0 (length cells.now) rgb }
{
    let sought = word(Cell { rgb, dirty: false });
    let mut other = 0;
    for cell in cells {
        other |= word(*cell) ^ sought;
    }
    other % (1 << 24) == 0
}

/// The cell's bytes as one number, those of its colour lowest.
fn word(cell: Cell) -> u32
    ensures { cell.rgb ≡ tone result }
{
    u32::from_le_bytes([
        cell.rgb.red,
        cell.rgb.green,
        cell.rgb.blue,
        u8::from(cell.dirty),
    ])
}

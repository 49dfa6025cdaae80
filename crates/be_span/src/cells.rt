ghost use Rattle.std.specs.Prelude.{◌≡◌, ℕ, ℤ, pos, ◌+ℤ◌, ◌+◌, ◌-◌, ◌<◌, ◌^◌, ◌==◌, true, false};
ghost use Rattle.std.specs.Prelude.{◌≤◌, slice_get, slice_index_or, length, count_by, Some};
ghost use Rattle.std.specs.Prelude.{if◌then◌else◌};
ghost use Rattle.std.specs.Option.{option_map};
ghost use Rattle.std.specs.Int.{bit_at};
ghost use Rattle.be_color.specs.declared.colors.Color.{Color};
ghost use Rattle.be_color.specs.declared.colors.Color.TheVariants.{Clear, Solid};
ghost use Rattle.be_color.specs.Pattern.{place_in_pattern};
ghost use Rattle.be_color.specs.Pixel.{picked};
ghost use Rattle.be_span.specs.Slices.{color_from, painted, row_bit, turned_bit};
ghost use Rattle.be_span.specs.Spans.{clean_cell};

use crate::Cell;
use crate::brush::Brush;
use be_color::{Color, Mode, Rgb, blend, pick};

/// The colours with which cells that stand side by side are painted, from the left on.
trait Source {
    /// How many cells there are colours for.
    ghost many: { Self → ℕ };

    /// That of the cell at a place.
    ghost color_at: { Self → ℕ → Color };

    fn color(&self, place: usize) -> Color
        requires { place < many self.now }
        ensures { result ≡ color_at self.now place };
}

/// All with the same.
#[derive(Clone, Copy)]
struct One {
    rgb: Rgb,
}

impl Source for One {
    ghost many = { λ s. 2 ^ 63 };

    ghost color_at = { λ s k. Solid s.rgb };

    #[inline(always)]
    fn color(&self, _place: usize) -> Color {
        Color::Solid(self.rgb)
    }
}

/// Each with the one that its bit of a byte picks, in turn.
#[derive(Clone, Copy)]
struct Bits {
    byte: u8,
    /// Which bit is the first cell's, from the left.
    first: usize,
    set: Color,
    unset: Color,
    ghost within: { first < 8 },
}

impl Source for Bits {
    ghost many = { λ s. 2 ^ 63 };

    ghost color_at = { λ s k. if turned_bit s.byte (s.first + k) then s.set else s.unset };

    #[inline(always)]
    fn color(&self, place: usize) -> Color {
        if has_bit(self.byte, (self.first + place) % 8) {
            self.set
        } else {
            self.unset
        }
    }
}

/// Each with its own.
#[derive(Clone, Copy)]
struct Own<'a> {
    colors: &'a [Color],
}

impl Source for Own<'_> {
    ghost many = { λ s. length s.colors.now };

    ghost color_at = { λ s k. slice_index_or s.colors.now k Clear };

    #[inline(always)]
    fn color(&self, place: usize) -> Color {
        self.colors[place]
    }
}

/// Paints each cell with the same colour.
#[inline(always)]
pub fn paint_alike(cells: &mut [Cell], brush: Brush, color: Color)
    ensures cells { (k : ℕ) → slice_get cells.new k
        ≡ option_map (painted brush color) (slice_get cells.old k) }
    ensures marks { count_by (λ c. c.dirty) cells.new ≡ count_by (λ c. c.dirty) cells.old }
{
    if let Color::Solid(rgb) = color {
        paint_cells(cells, brush, &One { rgb });
    }
}

/// Paints each cell with the colour that its bit of the byte picks, the row of a pattern. The first
/// cell is in this column of the window. Two colours that take the place of each pixel's are stored
/// without a look at a cell where it is told that none is dirty.
#[inline(always)]
pub fn paint_bits(cells: &mut [Cell], brush: Brush, byte: u8, column: i32, clean: bool)
    requires { clean ≡ true → count_by (λ c. c.dirty) cells.old ≡ 0 }
    ensures cells { (k : ℕ) → slice_get cells.new k
        ≡ option_map (painted brush
        (picked brush.mode (row_bit byte (column +ℤ pos k)) brush.high brush.low))
        (slice_get cells.old k) }
    ensures marks { count_by (λ c. c.dirty) cells.new ≡ count_by (λ c. c.dirty) cells.old }
{
    let Brush { mode, high, low } = brush;
    let set = pick(mode, true, high, low);
    let unset = pick(mode, false, high, low);
    if byte == 0xff {
        paint_alike(cells, brush, set);
    } else if byte == 0 {
        paint_alike(cells, brush, unset);
    } else {
        let first = place_in_row(column);
        paint_turns(cells, brush, byte, first, set, unset, clean);
    }
}

/// Paints each cell with one of two colours, as its bit of the byte is set or not.
#[inline(always)]
fn paint_turns(
    cells: &mut [Cell],
    brush: Brush,
    byte: u8,
    first: usize,
    set: Color,
    unset: Color,
    clean: bool,
)
    requires first { first < 8 }
    requires clean { clean ≡ true → count_by (λ c. c.dirty) cells.old ≡ 0 }
    ensures cells { (k : ℕ) → slice_get cells.new k ≡ option_map
        (painted brush (if turned_bit byte (first + k) then set else unset))
        (slice_get cells.old k) }
    ensures marks { count_by (λ c. c.dirty) cells.new ≡ count_by (λ c. c.dirty) cells.old }
{
    match (set, unset) {
        (Color::Solid(set), Color::Solid(unset)) if clean && brush.replaces() => {
            tile(cells, byte, first, set, unset);
        }
        _ => {
            let bits = Bits {
                byte,
                first,
                set,
                unset,
            };
            paint_cells(cells, brush, &bits);
        }
    }
}

/// Makes each cell clean and of one of two colours. Behind the eighth each is like the one eight
/// before it.
fn tile(cells: &mut [Cell], byte: u8, first: usize, set: Rgb, unset: Rgb)
    requires { first < 8 }
    ensures len { length cells.new ≡ length cells.old }
    ensures each { (k : ℕ) → k < length cells.old → slice_get cells.new k
        ≡ Some (clean_cell (if turned_bit byte (first + k) then set else unset)) }
{
    let head = cells.len().min(8);
    for place in 0..head {
        let rgb = if has_bit(byte, (first + place) % 8) {
            set
        } else {
            unset
        };
        cells[place] = Cell { rgb, dirty: false };
    }
    for place in head..cells.len() {
        cells[place] = cells[place - 8];
    }
}

/// Paints each cell with its own colour, of which the first is for the cell at `from`. A cell
/// before it or behind the last colour stays.
#[inline(always)]
pub fn paint_colors(cells: &mut [Cell], from: usize, brush: Brush, colors: &[Color])
    ensures cells { (k : ℕ) → slice_get cells.new k
        ≡ option_map (painted brush (color_from from colors.now k)) (slice_get cells.old k) }
    ensures marks { count_by (λ c. c.dirty) cells.new ≡ count_by (λ c. c.dirty) cells.old }
{
    if from < cells.len() {
        let count = colors.len().min(cells.len() - from);
        paint_cells(&mut cells[from..from + count], brush, &Own { colors });
    }
}

/// Paints each cell with the source's colour for it. There is a loop for each mode.
fn paint_cells<S: Source>(cells: &mut [Cell], brush: Brush, source: &S)
    requires { length cells.old ≤ S.many source.now }
    ensures cells { (k : ℕ) → slice_get cells.new k
        ≡ option_map (painted brush (S.color_at source.now k)) (slice_get cells.old k) }
    ensures marks { count_by (λ c. c.dirty) cells.new ≡ count_by (λ c. c.dirty) cells.old }
{
    let Brush { mode, high, low } = brush;
    match mode {
        Mode::Copy => paint_each(cells, Mode::Copy, source, high, low),
        Mode::Over => paint_each(cells, Mode::Over, source, high, low),
        Mode::Erase => paint_each(cells, Mode::Erase, source, high, low),
        Mode::Invert => paint_each(cells, Mode::Invert, source, high, low),
        Mode::Add => paint_each(cells, Mode::Add, source, high, low),
        Mode::Subtract => paint_each(cells, Mode::Subtract, source, high, low),
        Mode::Blend => paint_each(cells, Mode::Blend, source, high, low),
        Mode::Min => paint_each(cells, Mode::Min, source, high, low),
        Mode::Max => paint_each(cells, Mode::Max, source, high, low),
        Mode::Select => paint_each(cells, Mode::Select, source, high, low),
    }
}

/// The same in a mode.
#[inline(always)]
fn paint_each<S: Source>(cells: &mut [Cell], mode: Mode, source: &S, high: Color, low: Color)
    requires { length cells.old ≤ S.many source.now }
    ensures cells { (k : ℕ) → slice_get cells.new k
        ≡ option_map (painted record { mode = mode; high = high; low = low }
        (S.color_at source.now k)) (slice_get cells.old k) }
    ensures marks { count_by (λ c. c.dirty) cells.new ≡ count_by (λ c. c.dirty) cells.old }
{
    let mut place = 0;
    for cell in cells.iter_mut() {
        if let Color::Solid(rgb) = source.color(place) {
            *cell = painted(*cell, mode, rgb, high, low);
        }
        place += 1;
    }
}

/// The cell painted in a mode. It is stored as a whole, so that many cells are at once.
#[inline(always)]
pub(crate) fn painted(cell: Cell, mode: Mode, source: Rgb, high: Color, low: Color) -> Cell
    ensures { result
        ≡ painted record { mode = mode; high = high; low = low } (Solid source) cell }
{
    Cell {
        rgb: blend(mode, Color::Solid(source), cell.rgb, high, low),
        dirty: cell.dirty,
    }
}

/// Whether a bit of the byte is set, counted from the left.
#[inline(always)]
fn has_bit(byte: u8, place: usize) -> bool
    requires { place < 8 }
    ensures { result ≡ (bit_at byte (7 - place) == 1) }
{
    byte >> (7 - place) & 1 == 1
}

/// Where a column falls in a pattern's row, 0 to 7.
#[tactic(auto, unfolding(be_color::specs::Pattern::place_in_pattern))]
#[inline(always)]
fn place_in_row(column: i32) -> usize
    ensures place { result ≡ place_in_pattern column }
    ensures within { result < 8 }
{
    column.rem_euclid(8) as usize
}

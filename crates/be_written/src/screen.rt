ghost use Rattle.std.specs.Prelude.{◌≡◌, ℕ, List, ◌∷◌, ◌++◌, ◌+◌, ◌*◌, ◌^◌, ◌<◌, ◌≤◌, length, Some};
ghost use Rattle.std.specs.Prelude.{OnOk};
ghost use Rattle.be_span.specs.declared.Cell.{Cell};
ghost use Rattle.be_written.specs.ScreenText.{run_word, row_text, screen_text};
ghost use Rattle.be_color.specs.declared.colors.Rgb.{Rgb};
ghost use Rattle.be_written.specs.Screens.{AreCellsOf, AreColored, IsLongest, IsStrip, rgb_at};
ghost use Rattle.be_written.specs.Screens.{row_at};

use crate::page::Page;
use crate::plain::run_end;
use be_color::Rgb;
use be_geom::NoMemory;
use be_span::Cell;

/// Pixels of one colour side by side in a row, up to the column `end`, which isn't among them.
#[derive(Clone, Copy)]
struct Run {
    rgb: Rgb,
    end: u32,
}

/// What is on a screen, asked for by the cells that lie side by side.
pub trait Screen {
    ghost across: { Self → ℕ };

    ghost down: { Self → ℕ };

    /// The screen's cells row by row, each row from its left.
    ghost cells: { Self → List Cell };

    fn width(&self) -> u32
        ensures { result ≡ across self.now };

    fn height(&self) -> u32
        ensures { result ≡ down self.now };

    /// The cells of a row from a column on, as far as they lie side by side: one at least.
    fn row_from(&self, row: u32, column: u32) -> &[Cell]
        requires row { row < down self.now }
        requires column { column < across self.now }
        ensures some { 0 < length result.now }
        ensures within { column + length result.now ≤ across self.now }
        ensures cells { AreCellsOf (cells self.now) (row * across self.now + column) result.now };
}

/// Cells that a screen told, and the column of the first.
#[derive(Clone, Copy)]
struct Strip<'a> {
    from: u32,
    cells: &'a [Cell],
}

/// Writes the screen's size, and each row as its longest runs of one colour. It looks at each cell
/// twice and at sixteen more for each run, at most, and asks the screen once for cells that lie
/// side by side.
pub fn write_screen<S: Screen>(page: &mut Page, screen: &S) -> Result<(), NoMemory>
    ensures { let s = screen.now in OnOk result
        (page.new ≡ page.old ++ screen_text (S.across s) (S.down s) (S.cells s)) }
{
    page.text(b"screen")?;
    page.number_word(u64::from(screen.width()))?;
    let height = screen.height();
    page.number_word(u64::from(height))?;
    page.end_line()?;
    for row in 0..height {
        write_row(page, screen, row)?;
    }
    Ok(())
}

fn write_row<S: Screen>(page: &mut Page, screen: &S, row: u32) -> Result<(), NoMemory>
    requires { row < S.down screen.now }
    ensures { let s = screen.now in OnOk result
        (page.new ≡ page.old ++ row_text row (row_at (S.across s) row (S.cells s))) }
{
    page.number(u64::from(row))?;
    let width = screen.width();
    let mut strip = Strip {
        from: 0,
        cells: &[],
    };
    let mut column = 0;
    while column < width {
        let run = longest_run(screen, row, column, &mut strip);
        write_run(page, run.end - column, run.rgb)?;
        column = run.end;
    }
    page.end_line()
}

/// The longest run from this pixel on.
fn longest_run<'a, S: Screen>(screen: &'a S, row: u32, column: u32, strip: &mut Strip<'a>) -> Run
    requires row { row < S.down screen.now }
    requires column { column < S.across screen.now }
    requires strip { let s = screen.now in IsStrip (S.across s) row (S.cells s) strip.old }
    ensures begins { column < result.end }
    ensures ends { result.end ≤ S.across screen.now }
    ensures longest { let s = screen.now in
        IsLongest (row_at (S.across s) row (S.cells s)) column result.end result.rgb }
    ensures strip { let s = screen.now in IsStrip (S.across s) row (S.cells s) strip.new }
{
    let width = screen.width();
    let first = run_at(screen, row, column, strip);
    let mut end = first.end;
    while end < width {
        let next = run_at(screen, row, end, strip);
        if first.rgb != next.rgb {
            return Run {
                rgb: first.rgb,
                end,
            };
        }
        end = next.end;
    }
    Run {
        rgb: first.rgb,
        end,
    }
}

/// Pixels from this one on that have its colour. Those behind them may have it too.
fn run_at<'a, S: Screen>(screen: &'a S, row: u32, column: u32, strip: &mut Strip<'a>) -> Run
    requires row { row < S.down screen.now }
    requires column { column < S.across screen.now }
    requires small { S.across screen.now < 2 ^ 32 }
    requires strip { let s = screen.now in IsStrip (S.across s) row (S.cells s) strip.old }
    ensures begins { column < result.end }
    ensures ends { result.end ≤ S.across screen.now }
    ensures colored { let s = screen.now in let first = row * S.across s in
        AreColored (S.cells s) (first + column) (first + result.end) result.rgb }
    ensures strip { let s = screen.now in IsStrip (S.across s) row (S.cells s) strip.new }
{
    let found = strip_with(screen, row, column, *strip);
    *strip = found;
    let place = (column - found.from) as usize;
    let end = run_end(found.cells, place);
    Run {
        rgb: found.cells[place].rgb,
        end: found.from + end as u32,
    }
}

/// The cells that are held, where this pixel's is among them, else those from it on.
fn strip_with<'a, S: Screen>(screen: &'a S, row: u32, column: u32, held: Strip<'a>) -> Strip<'a>
    requires row { row < S.down screen.now }
    requires column { column < S.across screen.now }
    requires small { S.across screen.now < 2 ^ 32 }
    requires held { let s = screen.now in IsStrip (S.across s) row (S.cells s) held }
    ensures strip { let s = screen.now in IsStrip (S.across s) row (S.cells s) result }
    ensures begins { result.from ≤ column }
    ensures ends { column < result.from + length result.cells.now }
{
    if held.from <= column && column - held.from < held.cells.len() as u32 {
        held
    } else {
        Strip {
            from: column,
            cells: screen.row_from(row, column),
        }
    }
}

/// A word for so many pixels, behind other words.
fn write_run(page: &mut Page, count: u32, rgb: Rgb) -> Result<(), NoMemory>
    ensures { OnOk result
        (page.new ≡ page.old ++ 32 ∷ run_word (record { count = count; rgb = rgb })) }
{
    page.number_word(u64::from(count))?;
    page.text(b"x")?;
    page.rgb(rgb)
}

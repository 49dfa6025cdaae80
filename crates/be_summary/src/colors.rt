ghost use Rattle.std.specs.Prelude.{◌≡◌, ◌+◌, ◌*◌, ◌<◌, [], ◌∷◌, ◌++◌, List, length, take, IfOk};
ghost use Rattle.std.specs.Prelude.{OnOk};
ghost use Rattle.be_span.specs.declared.Cell.{Cell};
ghost use Rattle.be_summary.specs.Colors.{HasColors};
ghost use Rattle.be_summary.specs.Summary.{color_count};

use be_color::Rgb;
use be_geom::NoMemory;
use be_span::Cell;
use be_written::Screen;
use std::alloc::Global;
use std::collections::BTreeSet;

/// The colours of some cells, by red, green and blue.
#[derive(Drop)]
struct Colors {
    seen: BTreeSet<(u8, u8, u8)>,
    /// One of them: that of the last cell.
    last: Option<Rgb>,
}

/// How many different colours a screen shows.
pub(crate) fn count_colors<S: Screen>(alloc: Global, screen: &S) -> Result<u64, NoMemory>
    requires { let s = screen.now in length (S.cells s) ≡ S.across s * S.down s }
    ensures { IfOk result (λ count. count ≡ color_count (S.cells screen.now)) }
{
    let mut colors = Colors {
        seen: BTreeSet::new(alloc),
        last: None,
    };
    let height = screen.height();
    for row in 0..height {
        add_row(&mut colors, screen, row)?;
    }
    Ok(colors.seen.len() as u64)
}

/// The cells of this row come behind those of the rows before it.
fn add_row<S: Screen>(colors: &mut Colors, screen: &S, row: u32) -> Result<(), NoMemory>
    requires row { row < S.down screen.now }
    requires before { let s = screen.now in
        HasColors (take (row * S.across s) (S.cells s)) colors.old }
    ensures { let s = screen.now in OnOk result
        (HasColors (take ((row + 1) * S.across s) (S.cells s)) colors.new) }
{
    let width = screen.width();
    let mut column = 0;
    while column < width {
        let cells = screen.row_from(row, column);
        add_cells(colors, cells)?;
        column += cells.len() as u32;
    }
    Ok(())
}

/// These cells come behind others.
fn add_cells(colors: &mut Colors, cells: &[Cell]) -> Result<(), NoMemory>
    ensures { (others : List Cell) → HasColors others colors.old
        → OnOk result (HasColors (others ++ cells.now) colors.new) }
{
    for cell in cells {
        add_color(colors, cell.rgb)?;
    }
    Ok(())
}

/// A cell of this colour comes behind others. It takes no look-up where the last has it too.
fn add_color(colors: &mut Colors, rgb: Rgb) -> Result<(), NoMemory>
    ensures { (others : List Cell) (cell : Cell) → cell.rgb ≡ rgb → HasColors others colors.old
        → OnOk result (HasColors (others ++ cell ∷ []) colors.new) }
{
    if colors.last == Some(rgb) {
        return Ok(());
    }
    colors.seen.insert((rgb.red, rgb.green, rgb.blue))?;
    colors.last = Some(rgb);
    Ok(())
}

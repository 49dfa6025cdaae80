ghost use Rattle.std.specs.Prelude.{◌≡◌, ◌*◌, length};

use crate::Look;
use be_color::Rgb;
use be_geom::NoMemory;
use be_span::Cell;
use be_written::Screen;
use std::alloc::Global;

/// A screen whose cells are in memory. It tells the cells of a row up to its end.
#[derive(Drop)]
pub struct Board {
    width: u32,
    height: u32,
    cells: Vec<Cell>,
    ghost whole: { length cells.items ≡ width * height },
}

impl Board {
    /// A screen that looks so.
    pub fn new(alloc: Global, width: u16, height: u16, look: Look) -> Result<Board, NoMemory> {
        let count = usize::from(width) * usize::from(height);
        let mut cells = Vec::with_capacity(alloc, count)?;
        for place in 0..count {
            let (x, y) = (place % usize::from(width), place / usize::from(width));
            cells.push(cell(look, (x + y) % 2 == 1))?;
        }
        if cells.len() != count {
            return Err(NoMemory);
        }
        Ok(Board {
            width: u32::from(width),
            height: u32::from(height),
            cells,
        })
    }
}

/// The cell of a place, which is odd or not.
fn cell(look: Look, is_odd: bool) -> Cell {
    let rgb = if look == Look::Checkered && is_odd {
        Rgb::WHITE
    } else {
        Rgb::BLACK
    };
    Cell { rgb, dirty: false }
}

impl Screen for Board {
    ghost across = { λ b. b.width };

    ghost down = { λ b. b.height };

    ghost cells = { λ b. b.cells.items };

    fn width(&self) -> u32 {
        self.width
    }

    fn height(&self) -> u32 {
        self.height
    }

    fn row_from(&self, row: u32, column: u32) -> &[Cell] {
        let first = row as usize * self.width as usize + column as usize;
        let count = (self.width - column) as usize;
        &self.cells[first..first + count]
    }
}

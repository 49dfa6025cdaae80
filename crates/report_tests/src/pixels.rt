ghost use Rattle.std.specs.Prelude.{◌≡◌, ◌*◌, ◌<◌, length};

use be_color::Rgb;
use be_span::Cell;
use be_written::Screen;
use std::alloc::{AllocError, Global};

/// A screen whose cells are in memory. It tells no more cells at once than `longest`, but one at
/// least.
#[derive(Drop)]
pub(crate) struct Pixels {
    width: u32,
    height: u32,
    longest: u32,
    cells: Vec<Cell>,
    ghost whole: { length cells.items ≡ width * height },
    ghost some: { 0 < longest },
}

impl Pixels {
    /// Each row's letters one behind the other, or nothing where they don't fill the screen.
    pub(crate) fn new(
        alloc: Global,
        (width, height): (u32, u32),
        longest: u32,
        letters: &[u8],
    ) -> Result<Option<Pixels>, AllocError> {
        let cells: Vec<Cell> = letters.iter().map(|letter| cell(*letter)).collect(alloc)?;
        if longest == 0 || cells.len() != width as usize * height as usize {
            return Ok(None);
        }
        Ok(Some(Pixels {
            width,
            height,
            longest,
            cells,
        }))
    }
}

/// White, black, or a colour of three digits that differ. A capital letter's cell is dirty.
fn cell(letter: u8) -> Cell {
    let rgb = match letter.to_ascii_lowercase() {
        b'w' => Rgb::WHITE,
        b'k' => Rgb::BLACK,
        _ => Rgb {
            red: 0x0a,
            green: 0x50,
            blue: 0xf3,
        },
    };
    Cell {
        rgb,
        dirty: letter.is_ascii_uppercase(),
    }
}

impl Screen for Pixels {
    ghost across = { λ p. p.width };

    ghost down = { λ p. p.height };

    ghost cells = { λ p. p.cells.items };

    fn width(&self) -> u32 {
        self.width
    }

    fn height(&self) -> u32 {
        self.height
    }

    fn row_from(&self, row: u32, column: u32) -> &[Cell] {
        let first = row as usize * self.width as usize + column as usize;
        let count = (self.width - column).min(self.longest) as usize;
        &self.cells[first..first + count]
    }
}

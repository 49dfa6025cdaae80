ghost use Rattle.std.specs.Prelude.{◌≡◌, ◌*◌, ◌<◌, length};

use be_color::Rgb;
use be_machine::{Act, Entry};
use be_span::Cell;
use be_summary::summary;
use be_twin::Outcome;
use be_written::Screen;
use std::alloc::{AllocError, Global};
use std::test::Fail;

/// A screen whose cells are in memory. It tells no more of them at once than `longest`.
#[derive(Drop)]
struct Board {
    width: u32,
    height: u32,
    longest: u32,
    cells: Vec<Cell>,
    ghost whole: { length cells.items ≡ width * height },
    ghost some: { 0 < longest },
}

impl Screen for Board {
    ghost across = { λ b. b.width };

    ghost down = { λ b. b.height };

    ghost cells = { λ b. b.cells.items };

    fn width(&self) -> u32 {
        self.width
    }

    fn height(&self) -> u32 {
        self.height
    }

    fn row_from(&self, row: u32, column: u32) -> &[Cell] {
        let first = row as usize * self.width as usize + column as usize;
        let count = (self.width - column).min(self.longest) as usize;
        &self.cells[first..first + count]
    }
}

impl Board {
    /// Each row's letters one behind the other, or nothing where they don't fill the screen.
    fn new(
        alloc: Global,
        (width, height): (u32, u32),
        longest: u32,
        letters: &[u8],
    ) -> Result<Option<Board>, AllocError> {
        let cells: Vec<Cell> = letters.iter().map(|letter| cell(*letter)).collect(alloc)?;
        if longest == 0 || cells.len() != width as usize * height as usize {
            return Ok(None);
        }
        Ok(Some(Board {
            width,
            height,
            longest,
            cells,
        }))
    }
}

/// Black, or a colour that is red, green or blue alone. A capital letter's cell is dirty.
fn cell(letter: u8) -> Cell {
    let (red, green, blue) = match letter.to_ascii_lowercase() {
        b'r' => (255, 0, 0),
        b'g' => (0, 255, 0),
        b'b' => (0, 0, 255),
        _ => (0, 0, 0),
    };
    Cell {
        rgb: Rgb { red, green, blue },
        dirty: letter.is_ascii_uppercase(),
    }
}

/// An Exec, a Take, or an entry of another kind.
fn entry(letter: u8) -> Entry {
    let act = match letter {
        b'x' => Act::Exec(7, Outcome::Done),
        b't' => Act::Take(7),
        b'd' => Act::Draw(0, 7),
        b'l' => Act::Lock(0),
        _ => Act::Stop,
    };
    Entry { actor: 1, act }
}

#[test]
fn entries_and_colors_are_counted(rt: HostRuntime) -> Result<(), Fail> {
    let alloc = rt.alloc();
    for (history, desktop, size, letters, want) in [
        (
            "",
            1,
            (1, 1),
            "k",
            "entries 0\nexecs 0\ntakes 0\ndesktop 1\ncolors 1\n",
        ),
        (
            "",
            0,
            (0, 3),
            "",
            "entries 0\nexecs 0\ntakes 0\ndesktop 0\ncolors 0\n",
        ),
        (
            "s",
            6,
            (3, 2),
            "rrrrrr",
            "entries 1\nexecs 0\ntakes 0\ndesktop 6\ncolors 1\n",
        ),
        (
            "ldxtxs",
            2,
            (3, 2),
            "krkrkr",
            "entries 6\nexecs 2\ntakes 1\ndesktop 2\ncolors 2\n",
        ),
        (
            "tttxs",
            0,
            (2, 4),
            "kKrRggbb",
            "entries 5\nexecs 1\ntakes 3\ndesktop 0\ncolors 4\n",
        ),
        (
            "xxx",
            9,
            (8, 1),
            "rgbgrgbb",
            "entries 3\nexecs 3\ntakes 0\ndesktop 9\ncolors 3\n",
        ),
    ] {
        let history: Vec<Entry> = history.bytes().map(entry).collect(alloc)?;
        for longest in [1, 2, 100] {
            let board = Board::new(alloc, size, longest, letters.as_bytes())?;
            let board = board.ok_or("not as many pixels")?;
            let text = summary(alloc, history.as_slice(), desktop, &board)?;
            assert_eq!(rt; text.as_slice(), want.as_bytes(), "{letters} {longest}");
        }
    }
    Ok(())
}

ghost use Rattle.std.specs.Prelude.{◌≡◌, true};
ghost use Rattle.be_pane.specs.StandsFor.{IsWhole};

use crate::whole::{is_executed, is_whole};
use be_bitmap::Bitmap;
use be_color::{Color, Rgb};
use be_command::{Command, Names, read_command};
use be_follow::{Across, Down, Follow};
use be_geom::{NoMemory, Point, Rect};
use be_pane::Pane;
use be_region::Region;
use be_span::{Cell, SpanBuf};
use be_twin::{Outcome, execute, judge};
use be_views::ViewTree;
use std::alloc::Global;
use std::process::Abort;
use std::test::Fail;

const WHITE: Color = Color::Solid(Rgb::WHITE);

const FIXED: Follow = Follow {
    across: Across::Left,
    down: Down::Top,
};

/// The letters of the colours that pictures show, small where a pixel is clean and great where it
/// is dirty.
const LETTERS: [([u8; 3], char, char); 9] = [
    ([0, 0, 0], 'k', 'K'),
    ([255, 0, 0], 'r', 'R'),
    ([0, 255, 0], 'g', 'G'),
    ([0, 0, 255], 'b', 'B'),
    ([255, 255, 0], 'y', 'Y'),
    ([0, 255, 255], 'c', 'C'),
    ([255, 0, 255], 'm', 'M'),
    ([128, 128, 128], 'h', 'H'),
    ([255, 255, 255], 'w', 'W'),
];

/// A colour of these parts of red, green and blue.
fn solid(parts: [u8; 3]) -> Color {
    let [red, green, blue] = parts;
    Color::Solid(Rgb { red, green, blue })
}

pub(crate) const fn rect(left: i16, top: i16, right: i16, bottom: i16) -> Rect {
    Rect {
        left,
        top,
        right,
        bottom,
    }
}

/// A window whose left top is the screen's pixel (1, 1), with the names that its commands use and
/// the bitmaps that they draw.
#[derive(Drop)]
pub(crate) struct Board {
    pub(crate) pane: Pane,
    names: Names,
    bitmaps: Vec<Bitmap>,
    ghost whole: { IsWhole pane },
}

impl Board {
    /// A window of 5 by 3 pixels, the last two of them another window's. Its child `kid` has the
    /// columns 1 to 2 of the rows 0 to 1. All is white and clean.
    pub(crate) fn new(alloc: Global) -> Result<Board, Fail> {
        let rects = [rect(1, 1, 5, 2), rect(1, 3, 3, 3)];
        Board::of(alloc, 4, 2, &rects, rect(1, 0, 2, 1))
    }

    /// A window whose root is so wide and so high, with a child, and which owns the pixels of some
    /// rectangles of the screen.
    pub(crate) fn of(
        alloc: Global,
        width: u8,
        height: u8,
        rects: &[Rect],
        kid: Rect,
    ) -> Result<Board, Fail> {
        let mut tree = ViewTree::new(alloc, i16::from(width), i16::from(height))?;
        let _kid = tree.add(0, kid, FIXED)?;
        let pane = white_pane(alloc, tree, rects)?;
        if !is_whole(&pane) {
            return Err("a pixel outside the frame")?;
        }
        Ok(Board {
            pane,
            names: names(alloc)?,
            bitmaps: bitmaps(alloc)?,
        })
    }

    /// Executes the command that a line is, or the end of the update. What comes of it was judged
    /// before.
    pub(crate) fn execute(&mut self, alloc: Global, line: &str) -> Result<Outcome, Fail> {
        let command = match line {
            "end" => Command::EndUpdate,
            _ => read_command(alloc, line.as_bytes(), &self.names)?,
        };
        if !is_executed(&command) {
            return Err("a change of the window")?;
        }
        let judged = judge(&self.pane, &command, &self.bitmaps);
        let outcome = execute(&mut self.pane, command, &self.bitmaps);
        if outcome != judged {
            return Err("judged otherwise")?;
        }
        Ok(outcome)
    }

    /// Opens an update of these pixels, in window coordinates.
    pub(crate) fn open(&mut self, alloc: Global, session: Rect) -> Result<(), NoMemory> {
        let session = Region::from_rect(alloc, session)?;
        self.pane.session = Some(session);
        Ok(())
    }

    /// The cell of a pixel in window coordinates.
    pub(crate) fn cell(&self, x: u8, y: u8) -> Option<Cell> {
        self.pane.spans.get(i32::from(x) + 1, i32::from(y) + 1)
    }

    /// Where a view's pen is. None where there is no such view.
    pub(crate) fn pen(&self, view: usize) -> Option<Point> {
        Some(self.pane.states.get(view)?.top().pen)
    }

    /// The window's rows, each pixel a letter, and a space where it isn't the window's.
    pub(crate) fn picture(&self, alloc: Global) -> Result<String, Fail> {
        let mut picture = String::new(alloc);
        for y in 0..4 {
            self.add_row(&mut picture, y)?;
        }
        Ok(picture)
    }

    /// Adds a row with a bar behind it.
    fn add_row(&self, picture: &mut String, y: u8) -> Result<(), Fail> {
        for x in 0..5 {
            picture.push(letter(self.cell(x, y)))?;
        }
        picture.push('|')?;
        Ok(())
    }
}

/// The letter of a cell.
fn letter(cell: Option<Cell>) -> char {
    let Some(cell) = cell else {
        return ' ';
    };
    let parts = [cell.rgb.red, cell.rgb.green, cell.rgb.blue];
    for (color, clean, dirty) in LETTERS {
        if color == parts {
            return if cell.dirty { dirty } else { clean };
        }
    }
    '?'
}

/// A pane with these views that has these pixels, all white and clean.
fn white_pane(alloc: Global, tree: ViewTree, rects: &[Rect]) -> Result<Pane, NoMemory> {
    let mut colors = Vec::new(alloc);
    for _view in 0..tree.len() {
        colors.push(WHITE)?;
    }
    if colors.len() != tree.len() {
        return Err(NoMemory);
    }
    let mut region = Region::empty(alloc);
    for rect in rects {
        region.include(&Region::from_rect(alloc, *rect)?)?;
    }
    let mut pane = Pane::new(alloc, 0, tree, colors)?;
    pane.place = Point { x: 1, y: 1 };
    pane.spans = SpanBuf::filled(alloc, region, Rgb::WHITE)?;
    Ok(pane)
}

/// The views `kid` and `lost`, of which the second isn't there, and the bitmaps `pic`, `nine` and
/// `gone`, of which the third isn't.
fn names(alloc: Global) -> Result<Names, Fail> {
    let mut names = Names::new(alloc);
    for view in ["kid", "lost"] {
        names.add_view(view)?;
    }
    for bitmap in ["pic", "nine", "gone"] {
        names.add_bitmap(bitmap)?;
    }
    Ok(names)
}

/// A row of red, nothing and blue, and a square of nine colours.
fn bitmaps(alloc: Global) -> Result<Vec<Bitmap>, Fail> {
    let mut row = Vec::new(alloc);
    for color in [solid([255, 0, 0]), Color::Clear, solid([0, 0, 255])] {
        row.push(color)?;
    }
    let mut square = Vec::new(alloc);
    for (color, _, _) in LETTERS {
        square.push(solid(color))?;
    }
    let mut bitmaps = Vec::new(alloc);
    if let (Ok(row), Ok(square)) = (Bitmap::new(3, 1, row), Bitmap::new(3, 3, square)) {
        bitmaps.push(row)?;
        bitmaps.push(square)?;
    }
    Ok(bitmaps)
}

/// Asserts that each of some lines is done, and what the window shows after it: `same` where that
/// is what it showed before.
pub(crate) fn assert_shows(
    rt: &impl Abort,
    alloc: Global,
    board: &mut Board,
    steps: &[(&str, &str)],
) -> Result<(), Fail> {
    let mut due = board.picture(alloc)?;
    for (line, after) in steps {
        same!(rt; board.execute(alloc, line)?, Outcome::Done, line);
        let shown = board.picture(alloc)?;
        if *after != "same" {
            due = String::from_str(alloc, after)?;
        }
        same!(rt; shown.as_str(), due.as_str(), line);
    }
    Ok(())
}

/// Asserts what each of some lines shows on a new board, in an update of these pixels where there
/// are some.
pub(crate) fn assert_draws(
    rt: &impl Abort,
    alloc: Global,
    session: Option<Rect>,
    steps: &[(&str, &str)],
) -> Result<(), Fail> {
    let mut board = Board::new(alloc)?;
    if let Some(session) = session {
        board.open(alloc, session)?;
    }
    assert_shows(rt, alloc, &mut board, steps)
}

/// Asserts what comes of each of some lines, which are refused and change nothing.
pub(crate) fn assert_outcomes(
    rt: &impl Abort,
    alloc: Global,
    lines: &[(&str, Outcome)],
) -> Result<(), Fail> {
    let mut board = Board::new(alloc)?;
    for (line, due) in lines {
        same!(rt; board.execute(alloc, line)?, *due, line);
    }
    let shown = board.picture(alloc)?;
    same!(rt; shown.as_str(), "wwwww|wwwww|www  |     |");
    Ok(())
}

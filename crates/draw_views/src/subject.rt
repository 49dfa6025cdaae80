use be_bitmap::Bitmap;
use be_color::{Color, Pattern, Rgb};
use be_geom::{NoMemory, Point, Rect};
use be_shape::{PenSize, Raster};
use std::alloc::Global;

/// What is drawn, within a square.
#[derive(Clone, Copy, Debug, PartialEq, Eq)]
pub enum Kind {
    /// The square, in one colour.
    Fill,
    /// The square, in two.
    Pattern,
    /// Its four sides.
    Frame,
    /// Its diagonal.
    Line,
    /// Lines of letters, eight rows apart.
    Text,
    /// A picture whose rows have eight pixels of a colour and then eight of another.
    Image,
    /// A picture none of whose pixels has the colour of the next.
    Photo,
    /// Such a picture, which then goes a row up and a row down again.
    Scroll,
    /// Nothing: the square is invalidated.
    Invalidate,
}

/// The side of the largest picture.
pub const TILE: i16 = 250;

/// A kind with what it needs.
#[derive(Drop)]
pub enum Subject {
    Shape(Raster, Pattern),
    Letters(Vec<u8>),
    Picture(Bitmap),
    Moving(Bitmap, Rect),
    Waiting(Rect),
}

/// What is drawn in a square of this side. None where there is no such picture.
pub fn subject_of(alloc: Global, kind: Kind, side: i16) -> Result<Option<Subject>, NoMemory> {
    let fill = Raster::Fill(square_of(side));
    Ok(match kind {
        Kind::Fill => Some(Subject::Shape(fill, Pattern::HIGH)),
        Kind::Pattern => Some(Subject::Shape(fill, Pattern::MIXED)),
        Kind::Frame => Some(Subject::Shape(frame_of(side), Pattern::HIGH)),
        Kind::Line => Some(Subject::Shape(diagonal_of(side), Pattern::HIGH)),
        Kind::Text => Some(Subject::Letters(letters(alloc, side)?)),
        Kind::Image => picture(alloc, side, 8)?.map(Subject::Picture),
        Kind::Photo => picture(alloc, side, 1)?.map(Subject::Picture),
        Kind::Scroll => {
            picture(alloc, side, 1)?.map(|bitmap| Subject::Moving(bitmap, rows_of(side)))
        }
        Kind::Invalidate => Some(Subject::Waiting(square_of(side))),
    })
}

fn square_of(side: i16) -> Rect {
    let last = side.saturating_sub(1);
    Rect {
        left: 0,
        top: 0,
        right: last,
        bottom: last,
    }
}

/// The rows of a square that a window of 700 rows has.
fn rows_of(side: i16) -> Rect {
    let square = square_of(side);
    Rect {
        bottom: square.bottom.min(699),
        ..square
    }
}

fn frame_of(side: i16) -> Raster {
    Raster::Frame(square_of(side), thin_pen())
}

fn diagonal_of(side: i16) -> Raster {
    let last = side.saturating_sub(1);
    Raster::Line(Point { x: 0, y: 0 }, Point { x: last, y: last }, thin_pen())
}

fn thin_pen() -> PenSize {
    PenSize::new(1).unwrap()
}

/// The letters of a line of text.
fn letters(alloc: Global, side: i16) -> Result<Vec<u8>, NoMemory> {
    let mut codes = Vec::new(alloc);
    for column in 0..side.unsigned_abs() / 6 {
        codes.push(65 + (column % 26) as u8)?;
    }
    Ok(codes)
}

/// A picture of two colours, each of which has so many pixels of a row before the other one
/// follows. None where there is no such picture.
fn picture(alloc: Global, side: i16, run: u16) -> Result<Option<Bitmap>, NoMemory> {
    let side = side.clamp(1, TILE) as u16;
    let mut pixels = Vec::new(alloc);
    for place in 0..u32::from(side) * u32::from(side) {
        let column = place % u32::from(side);
        let odd = column / u32::from(run.max(1)) % 2 == 1;
        pixels.push(if odd {
            Color::Solid(Rgb::BLACK)
        } else {
            Color::Solid(Rgb::DESKTOP)
        })?;
    }
    Ok(Bitmap::new(side, side, pixels).ok())
}

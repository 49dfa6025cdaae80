ghost use Rattle.std.specs.Prelude.{◌≤ℤ◌, pos};

use be_geom::{Point, Rect};
use be_shape::{PenSize, Raster};

/// The shape of a name, of so many pixels from the origin on: a square, the frame of one, a line of
/// so many rows, and a line of so many columns and ten rows at most.
pub fn shape_of(name: &str, side: i16) -> Option<Raster> {
    if side < 1 {
        return None;
    }
    let far = side - 1;
    let pen = PenSize::new(1)?;
    let square = Rect {
        left: 0,
        top: 0,
        right: far,
        bottom: far,
    };
    if name == "fill" {
        Some(Raster::Fill(square))
    } else if name == "frame" {
        Some(Raster::Frame(square, pen))
    } else if name == "steep" {
        Some(Raster::Line(at(0, 0), at(far / 3, far), pen))
    } else if name == "flat" {
        Some(Raster::Line(at(0, 0), at(far, far.min(9)), pen))
    } else {
        None
    }
}

const fn at(x: i16, y: i16) -> Point {
    Point { x, y }
}

/// How many pixels the runs of a shape have, over all rounds. No round begins where the one before
/// did, so that a compiler can't take two rounds for one.
pub fn pixels_of_rounds(shape: &Raster, rounds: u32) -> u64 {
    let mut pixels = 0u64;
    for round in 0..rounds {
        pixels = pixels.wrapping_add(pixels_of(shape, -40000 - (round % 16) as i32));
    }
    pixels
}

/// How many pixels the runs of a shape have from a column on.
fn pixels_of(shape: &Raster, column: i32) -> u64
    requires { column ≤ℤ pos 0 }
{
    let Some((first, last)) = shape.rows() else {
        return 0;
    };
    let mut pixels = 0u64;
    for y in first..=last {
        let mut from = column;
        while let Some((left, right)) = shape.next_run(y, from) {
            pixels = pixels.wrapping_add((right - left) as u64 + 1);
            from = right + 2;
        }
    }
    pixels
}

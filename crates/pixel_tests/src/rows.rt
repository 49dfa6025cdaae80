use be_geom::{Point, Rect};
use be_shape::{PenSize, Raster, Row, Span};
use std::process::Abort;

fn pen(rt: &impl Abort, pixels: u8) -> PenSize {
    PenSize::new(pixels).expect(rt, "a pen of 1 to 32 pixels")
}

fn line(rt: &impl Abort, ends: [i16; 4], pixels: u8) -> Raster {
    let from = Point {
        x: ends[0],
        y: ends[1],
    };
    let to = Point {
        x: ends[2],
        y: ends[3],
    };
    Raster::Line(from, to, pen(rt, pixels))
}

fn rect(edges: [i16; 4]) -> Rect {
    Rect {
        left: edges[0],
        top: edges[1],
        right: edges[2],
        bottom: edges[3],
    }
}

fn frame(rt: &impl Abort, edges: [i16; 4], pixels: u8) -> Raster {
    Raster::Frame(rect(edges), pen(rt, pixels))
}

fn one(first: i32, last: i32) -> Row {
    Row::One(Span { first, last })
}

fn two(first: i32, last: i32, next: i32, end: i32) -> Row {
    Row::Two(
        Span { first, last },
        Span {
            first: next,
            last: end,
        },
    )
}

#[test]
fn rows_of_rectangles(rt: HostRuntime) {
    let fill = Raster::Fill(rect([1, 2, 4, 5]));
    let nothing = Raster::Fill(rect([1, 0, 0, 0]));
    let thin = frame(&rt, [0, 0, 4, 3], 1);
    let thick = frame(&rt, [0, 0, 5, 5], 2);
    let closed = frame(&rt, [0, 0, 3, 4], 3);
    for (shape, y, row) in [
        (&fill, 1, Row::Empty),
        (&fill, 2, one(1, 4)),
        (&fill, 5, one(1, 4)),
        (&fill, 6, Row::Empty),
        (&nothing, 0, Row::Empty),
        (&thin, -1, Row::Empty),
        (&thin, 0, one(0, 4)),
        (&thin, 1, two(0, 0, 4, 4)),
        (&thin, 2, two(0, 0, 4, 4)),
        (&thin, 3, one(0, 4)),
        (&thin, 4, Row::Empty),
        (&thick, 1, one(0, 6)),
        (&thick, 2, two(0, 1, 5, 6)),
        (&thick, 6, one(0, 6)),
        (&thick, 7, Row::Empty),
        // The left side ends beside the right one.
        (&closed, -1, one(-1, 4)),
        (&closed, 2, one(-1, 4)),
    ] {
        same!(rt; shape.row(y), row, (shape, y));
    }
}

#[test]
fn rows_of_lines(rt: HostRuntime) {
    // Up and to the left: its points have the columns 2, 2, 1, 1, 0 and 0.
    let steep = line(&rt, [2, 5, 0, 0], 1);
    // Down and to the right: its points have the rows 0, 0, 1, 1, 2 and 2.
    let gentle = line(&rt, [0, 0, 5, 2], 1);
    let wide = line(&rt, [0, 0, 5, 2], 3);
    for (shape, y, row) in [
        (&steep, -1, Row::Empty),
        (&steep, 0, one(0, 0)),
        (&steep, 1, one(0, 0)),
        (&steep, 2, one(1, 1)),
        (&steep, 3, one(1, 1)),
        (&steep, 4, one(2, 2)),
        (&steep, 5, one(2, 2)),
        (&steep, 6, Row::Empty),
        (&gentle, -1, Row::Empty),
        (&gentle, 0, one(0, 1)),
        (&gentle, 1, one(2, 3)),
        (&gentle, 2, one(4, 5)),
        (&gentle, 3, Row::Empty),
        (&wide, -2, Row::Empty),
        (&wide, -1, one(-1, 2)),
        (&wide, 0, one(-1, 4)),
        (&wide, 2, one(1, 6)),
        (&wide, 3, one(3, 6)),
        (&wide, 4, Row::Empty),
    ] {
        same!(rt; shape.row(y), row, (shape, y));
    }
}

/// The column of a row of a steep line. None of any other shape.
fn column_of(shape: &Raster, y: i32) -> Option<i32> {
    match shape.steep() {
        Some(line) => line.column(y),
        None => None,
    }
}

#[test]
fn columns_of_steep_lines(rt: HostRuntime) {
    // Down and to the right: its points have the columns 1, 1, 2, 2, 3 and 3.
    let steep = line(&rt, [1, -2, 3, 3], 1);
    let diagonal = line(&rt, [0, 0, 3, -3], 1);
    let gentle = line(&rt, [0, 0, 5, 2], 1);
    let thick = line(&rt, [1, -2, 3, 3], 2);
    for (shape, due) in [
        (&steep, true),
        (&diagonal, true),
        (&gentle, false),
        (&thick, false),
    ] {
        same!(rt; shape.steep().is_some(), due, shape);
    }
    for (shape, y, due) in [
        (&steep, -3, None),
        (&steep, -2, Some(1)),
        (&steep, -1, Some(1)),
        (&steep, 0, Some(2)),
        (&steep, 1, Some(2)),
        (&steep, 2, Some(3)),
        (&steep, 3, Some(3)),
        (&steep, 4, None),
        (&diagonal, -4, None),
        (&diagonal, -2, Some(2)),
        (&diagonal, 1, None),
        (&gentle, 1, None),
        (&thick, 0, None),
    ] {
        same!(rt; column_of(shape, y), due, (shape, y));
    }
}

/// Whether the rows from one down to a last one have the same columns, of those from -4 to 9.
fn have_the_same(shape: &Raster, y: i32, last: i32) -> bool {
    for z in y..=last {
        for x in -4..10 {
            if shape.has(x, z) != shape.has(x, y) {
                return false;
            }
        }
    }
    true
}

#[test]
fn rows_that_are_alike(rt: HostRuntime) {
    let fill = Raster::Fill(rect([1, 2, 4, 5]));
    let thin = frame(&rt, [0, 0, 4, 3], 1);
    let thick = frame(&rt, [0, 0, 4, 6], 3);
    let diagonal = line(&rt, [0, 0, 3, 3], 1);
    let steep = line(&rt, [2, 5, 0, 0], 1);
    // The row below `most` has other columns.
    for (shape, y, most) in [
        (&fill, -3, 1),
        (&fill, 1, 1),
        (&fill, 2, 5),
        (&fill, 5, 5),
        (&fill, 6, 2147483647),
        (&thin, -2, -1),
        (&thin, 0, 0),
        (&thin, 1, 2),
        (&thin, 3, 3),
        (&thin, 4, 2147483647),
        (&thick, -1, 1),
        (&thick, 2, 4),
        (&thick, 5, 7),
        (&diagonal, -1, -1),
        (&diagonal, 0, 0),
        (&diagonal, 2, 2),
        (&steep, 4, 5),
    ] {
        let last = shape.alike(y);
        same!(rt; y <= last && last <= most, true, (shape, y, last));
        same!(rt; have_the_same(shape, y, last.min(9)), true, (shape, y, last));
    }
}

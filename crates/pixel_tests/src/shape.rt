use be_geom::{Point, Rect};
use be_shape::{PenSize, Raster};
use std::process::Abort;

fn pen(rt: &impl Abort, pixels: u8) -> PenSize {
    PenSize::new(pixels).expect(rt, "a pen of 1 to 32 pixels")
}

fn line(rt: &impl Abort, ends: [i16; 4], pixels: u8) -> Raster {
    let from = Point {
        x: ends[0],
        y: ends[1],
    };
    let to = Point {
        x: ends[2],
        y: ends[3],
    };
    Raster::Line(from, to, pen(rt, pixels))
}

fn rect(edges: [i16; 4]) -> Rect {
    Rect {
        left: edges[0],
        top: edges[1],
        right: edges[2],
        bottom: edges[3],
    }
}

fn frame(rt: &impl Abort, edges: [i16; 4], pixels: u8) -> Raster {
    Raster::Frame(rect(edges), pen(rt, pixels))
}

/// Compares the pixels from a column and a row on with a picture, whose rows end at slashes.
fn check(rt: &impl Abort, shape: &Raster, left: i16, top: i16, picture: &str) {
    let mut x = i32::from(left);
    let mut y = i32::from(top);
    for byte in picture.as_bytes() {
        if *byte == b'/' {
            x = i32::from(left);
            y = y.wrapping_add(1);
        } else {
            same!(rt; shape.has(x, y), *byte == b'#', (shape, x, y));
            x = x.wrapping_add(1);
        }
    }
}

const LINES: [([i16; 4], u8, i16, i16, &str); 15] = [
    ([0, 0, 2, 1], 1, -1, -1, "...../.#.../..##./....."),
    ([2, 1, 0, 0], 1, -1, -1, "...../.##../...#./....."),
    ([3, 3, 3, 3], 1, 2, 2, ".../.#./..."),
    ([3, 3, 3, 3], 2, 2, 2, "..../.##./.##./...."),
    (
        [0, 0, 2, 1],
        2,
        -1,
        -1,
        "....../.##.../.####./..###./......",
    ),
    ([1, 1, 4, 1], 3, 0, 0, "######./######./######./......."),
    ([1, 1, 1, 3], 1, 0, 0, ".../.#./.#./.#./..."),
    ([0, 0, 3, 1], 1, -1, -1, "....../.##.../...##./......"),
    ([0, 0, 3, -1], 1, -1, -2, "....../...##./.##.../......"),
    ([0, 0, -3, 1], 1, -4, -1, "....../...##./.##.../......"),
    ([0, 0, -3, -1], 1, -4, -2, "....../.##.../...##./......"),
    ([0, 0, 1, 3], 1, -1, 0, ".#../.#../..#./..#./...."),
    ([0, 0, -1, 3], 1, -2, 0, "..#./..#./.#../.#../...."),
    ([0, 0, 1, -3], 1, -1, -4, "..../..#./..#./.#../.#.."),
    ([0, 0, -1, -3], 1, -2, -4, "..../.#../.#../..#./..#."),
];

#[test]
fn lines_take_the_nearest_pixels(rt: HostRuntime) {
    for (ends, pixels, left, top, picture) in &LINES {
        check(&rt, &line(&rt, *ends, *pixels), *left, *top, picture);
    }
}

const FRAMES: [([i16; 4], u8, i16, i16, &str); 7] = [
    ([0, 0, 0, 0], 1, -1, -1, ".../.#./..."),
    ([0, 0, 0, 0], 3, -2, -2, "...../.###./.###./.###./....."),
    ([0, 0, 1, 1], 1, -1, -1, "..../.##./.##./...."),
    ([0, 0, 2, 3], 1, 0, 0, "###./#.#./#.#./###./...."),
    (
        [0, 0, 3, 3],
        2,
        0,
        0,
        "#####./#####./##.##./#####./#####./......",
    ),
    ([0, 0, 2, 2], 2, 0, 0, "####./####./####./####./....."),
    ([2, 0, 1, 5], 3, 0, -1, "..../..../..../..../..../...."),
];

#[test]
fn frames_have_four_sides(rt: HostRuntime) {
    for (edges, pixels, left, top, picture) in &FRAMES {
        check(&rt, &frame(&rt, *edges, *pixels), *left, *top, picture);
    }
    let fill = Raster::Fill(rect([0, 0, 1, 2]));
    check(&rt, &fill, -1, -1, "..../.##./.##./.##./....");
}

#[test]
fn rows_end_at_the_last_pixel(rt: HostRuntime) {
    for (shape, rows) in [
        (
            line(&rt, [-32768, -32768, 32767, 32767], 32),
            Some((-32783, 32783)),
        ),
        (line(&rt, [-32768, 0, 32767, 1], 1), Some((0, 1))),
        (line(&rt, [5, 9, 7, 2], 4), Some((1, 11))),
        (frame(&rt, [0, 0, 3, 3], 1), Some((0, 3))),
        (frame(&rt, [0, 4, 3, 4], 32), Some((-11, 20))),
        (frame(&rt, [0, 4, 3, 3], 32), None),
        (
            Raster::Fill(rect([0, -32768, 0, 32767])),
            Some((-32768, 32767)),
        ),
        (Raster::Fill(rect([1, 0, 0, 0])), None),
    ] {
        same!(rt; shape.rows(), rows, shape);
    }
    assert!(rt; PenSize::new(0).is_none());
    assert!(rt; PenSize::new(33).is_none());
    same!(rt; pen(&rt, 32).pixels(), 32);
}

#[test]
fn runs_end_at_the_last_pixel(rt: HostRuntime) {
    let diagonal = line(&rt, [-32768, -32768, 32767, 32767], 32);
    let flat = line(&rt, [-32768, 0, 32767, 1], 1);
    let hollow = frame(&rt, [0, 0, 3, 3], 1);
    let widest = Raster::Fill(rect([-32768, -32768, 32767, 32767]));
    for (shape, y, from, run) in [
        (&diagonal, -32783, -40000, Some((-32783, -32752))),
        (&diagonal, 0, -31, Some((-31, 31))),
        (&diagonal, 0, 31, Some((31, 31))),
        (&diagonal, 0, 32, None),
        (&diagonal, 32784, -40000, None),
        (&flat, 0, -2147483648, Some((-32768, -1))),
        (&flat, 1, -2147483648, Some((0, 32767))),
        (&flat, 2147483647, 0, None),
        (&hollow, 0, 2, Some((2, 3))),
        (&hollow, 1, -5, Some((0, 0))),
        (&hollow, 1, 1, Some((3, 3))),
        (&hollow, 1, 4, None),
        (&widest, 32767, 2147483647, None),
        (&widest, -32768, 0, Some((0, 32767))),
    ] {
        same!(rt; shape.next_run(y, from), run, (shape, y, from));
    }
}

ghost use Rattle.std.specs.Prelude.{◌<◌, length};
ghost use Rattle.be_geom.specs.Places.{IsNear};

use be_bitmap::Bitmap;
use be_color::{Color, Mode, Pattern, Rgb};
use be_descent::{
    Coat, Image, Ink, Letters, Reach, Way, marks_stay, paint_bands, paint_image, paint_letters,
    paint_line,
};
use be_follow::{Across, Down, Follow};
use be_geom::{NoMemory, Point, Rect};
use be_region::Region;
use be_shape::{PenSize, Raster};
use be_span::{Brush, Cell, Fill, SpanBuf};
use be_state::{State, StateStack};
use be_views::ViewTree;
use std::alloc::Global;
use std::process::Abort;
use std::test::Fail;

const HIGH: Rgb = Rgb {
    red: 9,
    green: 0,
    blue: 0,
};

const LOW: Rgb = Rgb {
    red: 0,
    green: 9,
    blue: 0,
};

const BRUSH: Brush = Brush {
    mode: Mode::Copy,
    high: Color::Solid(HIGH),
    low: Color::Solid(LOW),
};

const FILL: Fill = Fill { rgb: HIGH };

const COAT: Coat = Coat {
    brush: BRUSH,
    pattern: Pattern::MIXED,
    window: WINDOW,
};

const ALL: Rect = Rect {
    left: -40,
    top: -40,
    right: 40,
    bottom: 40,
};

/// Where the window's left top is on the screen.
const WINDOW: Point = Point { x: 2, y: 1 };

/// From the window's left top to the screen's.
const HERE: Way = Way { right: 2, down: 1 };

const FIXED: Follow = Follow {
    across: Across::Left,
    down: Down::Top,
};

fn rect(left: i16, top: i16, right: i16, bottom: i16) -> Rect {
    Rect {
        left,
        top,
        right,
        bottom,
    }
}

/// Ten columns and six rows, but for the two last columns of the three last rows. All are black.
fn pixels(alloc: Global) -> Result<SpanBuf, NoMemory> {
    let mut region = Region::from_rect(alloc, rect(2, 1, 11, 3))?;
    region.include(&Region::from_rect(alloc, rect(2, 4, 9, 6))?)?;
    SpanBuf::filled(alloc, region, Rgb::BLACK)
}

/// A view with a child, and a later one in front of its corner.
fn views(rt: &impl Abort, alloc: Global) -> Result<ViewTree, NoMemory> {
    let mut tree = ViewTree::new(alloc, 9, 5)?;
    same!(rt; tree.add(0, rect(1, 1, 8, 4), FIXED), Ok(1));
    same!(rt; tree.add(1, rect(2, 1, 3, 2), FIXED), Ok(2));
    same!(rt; tree.add(0, rect(7, 0, 9, 2), FIXED), Ok(3));
    Ok(tree)
}

fn sign(cell: Option<Cell>) -> u8 {
    match cell {
        None => b'-',
        Some(cell) => {
            if cell.rgb == HIGH {
                b'#'
            } else if cell.rgb == LOW {
                b'o'
            } else {
                b'.'
            }
        }
    }
}

/// Compares the window's pixels with a picture, whose rows end at slashes.
fn check(rt: &impl Abort, spans: &SpanBuf, picture: &str) {
    let mut x: i32 = 2;
    let mut y: i32 = 1;
    for byte in picture.as_bytes() {
        if *byte == b'/' {
            x = 2;
            y = y.wrapping_add(1);
        } else {
            same!(rt; sign(spans.get(x, y)), *byte, (picture, x, y));
            x = x.wrapping_add(1);
        }
    }
}

/// Where a view of a tree draws, whose left top is in a column and a row of the screen. There is a
/// limit by an open update where one is given.
macro_rules! drawing_in {
    ($tree:expr, $view:expr, ($right:expr, $down:expr), $states:expr) => {
        drawing_in!($tree, $view, ($right, $down), $states, None)
    };
    ($tree:expr, $view:expr, ($right:expr, $down:expr), $states:expr, $session:expr) => {
        Reach {
            window: WINDOW,
            tree: &$tree,
            view: $view,
            states: &$states,
            corner: Way {
                right: $right,
                down: $down,
            },
            session: $session,
        }
    };
}

#[test]
fn a_root_draws_beside_its_children(rt: HostRuntime) -> Result<(), Fail> {
    let tree = views(&rt, rt.alloc())?;
    let states = StateStack::new(rt.alloc())?;
    let reach = drawing_in!(tree, 0, (2, 1), states);
    if tree.len() <= 2 {
        panic!(rt; "the views are there");
    }
    let all = Raster::Fill(ALL);
    for picture in ["#######.../#........./#........./#.......--/#.......--/########--"] {
        let mut spans = pixels(rt.alloc())?;
        paint_bands(&mut spans, &all, HERE, &reach, &Ink { paint: FILL });
        check(&rt, &spans, picture);
    }
    Ok(())
}

#[test]
fn a_child_draws_in_its_frame(rt: HostRuntime) -> Result<(), Fail> {
    let tree = views(&rt, rt.alloc())?;
    let states = StateStack::new(rt.alloc())?;
    let reach = drawing_in!(tree, 2, (5, 3), states);
    if tree.len() <= 2 {
        panic!(rt; "the views are there");
    }
    let all = Raster::Fill(ALL);
    for picture in ["........../........../...##...../...##...--/........--/........--"] {
        let mut spans = pixels(rt.alloc())?;
        paint_bands(&mut spans, &all, HERE, &reach, &Ink { paint: FILL });
        check(&rt, &spans, picture);
    }
    marks_stay();
    Ok(())
}

/// A clip of two parts in the first state, and one that lies (2, 1) further in the state that
/// follows it. The last state has none.
fn two_clips(alloc: Global) -> Result<StateStack, Fail> {
    let mut states = StateStack::new(alloc)?;
    let mut region = Region::from_rect(alloc, rect(1, 0, 2, 3))?;
    region.include(&Region::from_rect(alloc, rect(4, 1, 6, 3))?)?;
    states.set_clip(Some(region));
    states.push()?;
    let state = *states.top();
    let origin = Point { x: 2, y: 1 };
    states.set(State { origin, ..state });
    states.set_clip(Some(Region::from_rect(alloc, rect(-2, 0, 3, 5))?));
    states.push()?;
    Ok(states)
}

#[test]
fn each_clip_holds_drawing_back(rt: HostRuntime) -> Result<(), Fail> {
    let tree = views(&rt, rt.alloc())?;
    let states = two_clips(rt.alloc())?;
    let reach = drawing_in!(tree, 1, (3, 2), states);
    if tree.len() <= 1 {
        panic!(rt; "the views are there");
    }
    let all = Raster::Fill(ALL);
    for picture in ["........../........../..#..##.../..#..##.--/..##.##.--/........--"] {
        let mut spans = pixels(rt.alloc())?;
        paint_bands(&mut spans, &all, HERE, &reach, &Ink { paint: FILL });
        check(&rt, &spans, picture);
    }
    Ok(())
}

#[test]
fn an_update_is_drawn_where_it_is_open(rt: HostRuntime) -> Result<(), Fail> {
    let tree = views(&rt, rt.alloc())?;
    let states = StateStack::new(rt.alloc())?;
    let mut open = Region::from_rect(rt.alloc(), rect(2, 1, 5, 3))?;
    open.include(&Region::from_rect(rt.alloc(), rect(6, 4, 9, 5))?)?;
    let reach = drawing_in!(tree, 1, (3, 2), states, Some(&open));
    if tree.len() <= 1 {
        panic!(rt; "the views are there");
    }
    let all = Raster::Fill(ALL);
    for picture in ["........../..####..../..#..#..../..#..#..--/......##--/........--"] {
        let mut spans = pixels(rt.alloc())?;
        paint_bands(&mut spans, &all, HERE, &reach, &Ink { paint: FILL });
        check(&rt, &spans, picture);
    }
    Ok(())
}

const MASKS: [u64; 7] = [
    0xb000_0000_0000_0000,
    0xc000_0000_0000_0000,
    0xffff_ffff_ffff_ffff,
    0,
    0,
    0,
    0x8000_0000_0000_0000,
];

#[test]
fn a_pattern_begins_at_the_window(rt: HostRuntime) -> Result<(), Fail> {
    let tree = views(&rt, rt.alloc())?;
    let states = StateStack::new(rt.alloc())?;
    let reach = drawing_in!(tree, 1, (3, 2), states);
    if tree.len() <= 1 {
        panic!(rt; "the views are there");
    }
    let all = Raster::Fill(ALL);
    for picture in ["........../.#o#o#o.../.o#..o#.../.#o..#o#--/.o#o#o#o--/........--"] {
        let mut spans = pixels(rt.alloc())?;
        paint_bands(&mut spans, &all, HERE, &reach, &Ink { paint: COAT });
        check(&rt, &spans, picture);
    }
    Ok(())
}

#[test]
fn letters_are_where_bits_are(rt: HostRuntime) -> Result<(), Fail> {
    let tree = views(&rt, rt.alloc())?;
    let states = StateStack::new(rt.alloc())?;
    let reach = drawing_in!(tree, 1, (3, 2), states);
    if tree.len() <= 1 {
        panic!(rt; "the views are there");
    }
    let all = Raster::Fill(ALL);
    let letters = Letters {
        brush: BRUSH,
        color: BRUSH.high,
        masks: &MASKS,
        way: Way { right: 4, down: 2 },
    };
    let ink = Ink { paint: letters };
    for picture in ["........../..#.##..../..#......./..#..###--/........--/........--"] {
        let mut spans = pixels(rt.alloc())?;
        paint_bands(&mut spans, &all, HERE, &reach, &ink);
        check(&rt, &spans, picture);
        let mut spans = pixels(rt.alloc())?;
        paint_letters(&mut spans, ALL, &letters, &reach);
        check(&rt, &spans, picture);
    }
    Ok(())
}

/// Paints a picture as the ink of a filled rectangle.
fn paint_as_ink(spans: &mut SpanBuf, image: &Image<'_>, reach: &Reach<'_>)
    requires view { reach.now.view < length reach.now.tree.now }
    requires corner { IsNear 64 reach.now.corner.right × IsNear 64 reach.now.corner.down }
{
    paint_bands(
        spans,
        &Raster::Fill(ALL),
        HERE,
        reach,
        &Ink { paint: *image },
    );
}

#[test]
fn a_clear_pixel_of_a_picture_stays(rt: HostRuntime) -> Result<(), Fail> {
    let tree = views(&rt, rt.alloc())?;
    let states = StateStack::new(rt.alloc())?;
    let reach = drawing_in!(tree, 1, (3, 2), states);
    if tree.len() <= 1 {
        panic!(rt; "the views are there");
    }
    let row = vec![in rt.alloc(); BRUSH.high, Color::Clear, BRUSH.low, BRUSH.low, BRUSH.high]?;
    let Ok(bitmap) = Bitmap::new(5, 1, row) else {
        panic!(rt; "five pixels are five by one");
    };
    let image = Image {
        brush: BRUSH,
        bitmap: &bitmap,
        way: Way { right: 3, down: 3 },
    };
    for picture in ["........../........../.#...#..../........--/........--/........--"] {
        let mut spans = pixels(rt.alloc())?;
        paint_as_ink(&mut spans, &image, &reach);
        check(&rt, &spans, picture);
        let mut spans = pixels(rt.alloc())?;
        paint_image(&mut spans, &image, &reach);
        check(&rt, &spans, picture);
    }
    Ok(())
}

/// A line's ends and its pen, and where it is painted.
const LINES: [([i16; 4], u8, &str); 3] = [
    (
        [0, 0, 7, 5],
        1,
        "........../.##......./........../........--/.....##.--/........--",
    ),
    (
        [5, 9, 5, 0],
        2,
        "........../.....##.../.....##.../.....##.--/.....##.--/........--",
    ),
    (
        [-300, 3, 300, 3],
        1,
        "........../........../........../.##..###--/........--/........--",
    ),
];

#[test]
fn shapes_are_painted_by_parts(rt: HostRuntime) -> Result<(), Fail> {
    let tree = views(&rt, rt.alloc())?;
    let states = StateStack::new(rt.alloc())?;
    let reach = drawing_in!(tree, 1, (3, 2), states);
    if tree.len() <= 1 {
        panic!(rt; "the views are there");
    }
    let thin = PenSize::new(1).expect(&rt, "a pen of one pixel");
    for (shape, picture) in [
        (
            Raster::Fill(rect(2, 2, 5, 4)),
            "........../........../..#..#..../..#..#..--/..####..--/........--",
        ),
        (
            Raster::Frame(rect(1, 1, 6, 4), thin),
            "........../.######.../.#....#.../.#....#.--/.######.--/........--",
        ),
    ] {
        let mut spans = pixels(rt.alloc())?;
        paint_bands(&mut spans, &shape, HERE, &reach, &Ink { paint: FILL });
        check(&rt, &spans, picture);
    }
    for (ends, size, picture) in &LINES {
        let mut spans = pixels(rt.alloc())?;
        let pen = PenSize::new(*size).expect(&rt, "a pen");
        let (from, to) = ends_of(ends);
        paint_line(&mut spans, from, to, pen, HERE, &reach, &FILL);
        check(&rt, &spans, picture);
    }
    Ok(())
}

fn ends_of(ends: &[i16; 4]) -> (Point, Point) {
    let from = Point {
        x: ends[0],
        y: ends[1],
    };
    let to = Point {
        x: ends[2],
        y: ends[3],
    };
    (from, to)
}

/// A row of a line from (0, 0) to (2, 199), and the column of its pixel.
const COLUMNS: [(i32, i32); 10] = [
    (0, 0),
    (49, 0),
    (50, 1),
    (63, 1),
    (64, 1),
    (127, 1),
    (128, 1),
    (149, 1),
    (150, 2),
    (199, 2),
];

#[test]
fn a_long_line_is_whole(rt: HostRuntime) -> Result<(), Fail> {
    let tree = ViewTree::new(rt.alloc(), 2, 199)?;
    let states = StateStack::new(rt.alloc())?;
    let reach = drawing_in!(tree, 0, (2, 1), states);
    if tree.len() == 0 {
        panic!(rt; "the root is there");
    }
    let (from, to) = ends_of(&[0, 0, 2, 199]);
    let thin = PenSize::new(1).expect(&rt, "a pen of one pixel");
    for (row, column) in &COLUMNS {
        let region = Region::from_rect(rt.alloc(), rect(2, 1, 4, 200))?;
        let mut spans = SpanBuf::filled(rt.alloc(), region, Rgb::BLACK)?;
        paint_line(&mut spans, from, to, thin, HERE, &reach, &FILL);
        for x in 0..3 {
            let due = if x == *column { b'#' } else { b'.' };
            same!(rt; sign(spans.get(x + 2, row.wrapping_add(1))), due, (x, *row));
        }
    }
    Ok(())
}

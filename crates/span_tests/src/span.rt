use be_color::{Color, Mode, Rgb};
use be_geom::{NoMemory, Rect};
use be_region::Region;
use be_span::{Brush, Cell, SpanBuf, paint_alike, paint_bits, paint_colors, paint_marked};
use std::alloc::Global;
use std::process::Abort;
use std::test::Fail;

const RED: Cell = Cell {
    rgb: Rgb {
        red: 255,
        green: 0,
        blue: 0,
    },
    dirty: true,
};

const WHITE: Cell = Cell {
    rgb: Rgb::WHITE,
    dirty: false,
};

const BLACK: Cell = Cell {
    rgb: Rgb::BLACK,
    dirty: false,
};

const HIGH: Rgb = Rgb {
    red: 1,
    green: 2,
    blue: 3,
};

const LOW: Rgb = Rgb {
    red: 4,
    green: 5,
    blue: 6,
};

fn rgb(red: u8, green: u8, blue: u8) -> Rgb {
    Rgb { red, green, blue }
}

/// The pixels of a row from one column to another.
fn row(left: i16, right: i16, y: i16) -> Rect {
    Rect {
        left,
        top: y,
        right,
        bottom: y,
    }
}

/// Black pixels of these rectangles.
fn black_spans(alloc: Global, rects: &[Rect]) -> Result<SpanBuf, NoMemory> {
    let mut region = Region::empty(alloc);
    for rect in rects {
        region.include(&Region::from_rect(alloc, *rect)?)?;
    }
    SpanBuf::prepare(alloc, region)
}

#[test]
fn a_window_of_two_pixels_moves(rt: HostRuntime) -> Result<(), Fail> {
    let mut old = black_spans(rt.alloc(), &[row(0, 1, 0)])?;
    let mut new = black_spans(rt.alloc(), &[row(1, 2, 0)])?;
    assert!(rt; old.set(0, 0, RED));
    assert!(rt; old.set(1, 0, WHITE));
    assert!(rt; !old.set(2, 0, WHITE));
    SpanBuf::carry(&mut old, 1, 0, &mut new);
    for (x, y, due) in [
        (0, 0, None),
        (1, 0, Some(RED)),
        (2, 0, Some(WHITE)),
        (3, 0, None),
        (1, 1, None),
        (1, -1, None),
    ] {
        same!(rt; new.get(x, y), due, (x, y));
    }
    same!(rt; new.dirty_count(), 1);
    Ok(())
}

fn color_at(spans: &SpanBuf, x: i32, y: i32) -> Option<Rgb> {
    match spans.get(x, y) {
        Some(cell) => Some(cell.rgb),
        None => None,
    }
}

/// Three columns and two rows, without the pixel in the middle of the upper row. Each cell has its
/// column as red and its row as green; two are dirty.
fn with_a_hole(alloc: Global) -> Result<SpanBuf, NoMemory> {
    let mut spans = black_spans(alloc, &[row(0, 0, 0), row(2, 2, 0), row(0, 2, 1)])?;
    for (x, y, red, green, dirty) in [
        (0, 0, 0, 0, false),
        (2, 0, 2, 0, true),
        (0, 1, 0, 1, false),
        (1, 1, 1, 1, true),
        (2, 1, 2, 1, false),
    ] {
        let rgb = rgb(red, green, 0);
        let _ = spans.set(x, y, Cell { rgb, dirty });
    }
    Ok(spans)
}

#[test]
fn rows_go_to_the_ends_of_spans(rt: HostRuntime) -> Result<(), Fail> {
    let spans = with_a_hole(rt.alloc())?;
    same!(rt; spans.region().count(), 3);
    for (x, y, len) in [
        (0, 0, 1),
        (1, 0, 0),
        (2, 0, 1),
        (0, 1, 3),
        (1, 1, 2),
        (3, 1, 0),
    ] {
        same!(rt; spans.row_from(x, y).len(), len, (x, y));
    }
    same!(rt; spans.dirty_count(), 2);
    assert!(rt; !spans.is_clean());
    Ok(())
}

#[test]
fn a_hole_moves_a_row_down(rt: HostRuntime) -> Result<(), Fail> {
    let mut old = with_a_hole(rt.alloc())?;
    let mut new = black_spans(rt.alloc(), &[row(0, 3, 1), row(0, 3, 2)])?;
    SpanBuf::carry(&mut old, 1, 1, &mut new);
    for (x, y, due) in [
        (0, 1, rgb(0, 0, 0)),
        (1, 1, rgb(0, 0, 0)),
        (2, 1, rgb(0, 0, 0)),
        (3, 1, rgb(2, 0, 0)),
        (0, 2, rgb(0, 0, 0)),
        (1, 2, rgb(0, 1, 0)),
        (2, 2, rgb(1, 1, 0)),
        (3, 2, rgb(2, 1, 0)),
    ] {
        same!(rt; color_at(&new, x, y), Some(due), (x, y));
    }
    same!(rt; new.dirty_count(), 2);
    SpanBuf::carry(&mut old, i32::MIN, i32::MAX, &mut new);
    same!(rt; new.dirty_count(), 2);
    Ok(())
}

#[test]
fn marks_are_taken_away(rt: HostRuntime) -> Result<(), Fail> {
    let mut spans = with_a_hole(rt.alloc())?;
    spans.clear_marks();
    for (x, y, due) in [
        (1, 0, None),
        (2, 0, Some(rgb(2, 0, 0))),
        (1, 1, Some(rgb(1, 1, 0))),
        (2, 1, Some(rgb(2, 1, 0))),
    ] {
        same!(rt; color_at(&spans, x, y), due, (x, y));
    }
    assert!(rt; spans.is_clean());
    Ok(())
}

/// The second and the third column of all rows.
fn two_columns(alloc: Global) -> Result<Region, NoMemory> {
    Region::from_rect(
        alloc,
        Rect {
            left: 1,
            top: -3,
            right: 2,
            bottom: 7,
        },
    )
}

#[test]
fn a_part_has_its_cells_and_marks(rt: HostRuntime) -> Result<(), Fail> {
    let part = with_a_hole(rt.alloc())?.part(&two_columns(rt.alloc())?)?;
    for (x, y, due) in [
        (0, 0, None),
        (1, 0, None),
        (2, 0, Some(rgb(2, 0, 0))),
        (0, 1, None),
        (1, 1, Some(rgb(1, 1, 0))),
        (2, 1, Some(rgb(2, 1, 0))),
    ] {
        same!(rt; color_at(&part, x, y), due, (x, y));
    }
    same!(rt; part.dirty_count(), 2);
    Ok(())
}

#[test]
fn a_column_comes_to_the_rest(rt: HostRuntime) -> Result<(), Fail> {
    let mut rest = black_spans(rt.alloc(), &[row(0, 0, 0), row(0, 0, 1)])?;
    assert!(rt; rest.set(0, 1, RED));
    rest.append(black_spans(rt.alloc(), &[row(2, 2, 0), row(1, 2, 1)])?)?;
    for (x, y, due) in [
        (0, 0, Some(BLACK)),
        (1, 0, None),
        (2, 0, Some(BLACK)),
        (0, 1, Some(RED)),
        (2, 1, Some(BLACK)),
    ] {
        same!(rt; rest.get(x, y), due, (x, y));
    }
    same!(rt; (rest.region().count(), rest.dirty_count()), (3, 1));
    Ok(())
}

fn brush_of(mode: Mode) -> Brush {
    Brush {
        mode,
        high: Color::Solid(HIGH),
        low: Color::Solid(LOW),
    }
}

/// A mode, and what comes of (200, 10, 255) where (100, 20, 254) is laid on it.
const PAINTED: [(Mode, u8, u8, u8); 10] = [
    (Mode::Copy, 100, 20, 254),
    (Mode::Over, 100, 20, 254),
    (Mode::Erase, 4, 5, 6),
    (Mode::Invert, 55, 245, 0),
    (Mode::Add, 255, 30, 255),
    (Mode::Subtract, 100, 0, 1),
    (Mode::Blend, 150, 15, 254),
    (Mode::Min, 100, 10, 254),
    (Mode::Max, 200, 20, 255),
    (Mode::Select, 200, 10, 255),
];

fn dirty(red: u8, green: u8, blue: u8) -> Cell {
    Cell {
        rgb: rgb(red, green, blue),
        dirty: true,
    }
}

#[test]
fn each_mode_paints_cells(rt: HostRuntime) {
    for (mode, red, green, blue) in &PAINTED {
        let old = dirty(200, 10, 255);
        let mut cells = [old; 3];
        paint_alike(
            &mut cells[1..],
            brush_of(*mode),
            Color::Solid(rgb(100, 20, 254)),
        );
        let new = dirty(*red, *green, *blue);
        same!(rt; cells, [old, new, new], *mode);
    }
}

#[test]
fn bits_pick_the_colors_of_cells(rt: HostRuntime) {
    for (mode, byte, column, due) in [
        (Mode::Copy, 0xa0, 7, [LOW, HIGH, LOW, HIGH]),
        (Mode::Copy, 0xa0, -1, [LOW, HIGH, LOW, HIGH]),
        (Mode::Copy, 0xa0, 0, [HIGH, LOW, HIGH, LOW]),
        (Mode::Copy, 0xff, 3, [HIGH; 4]),
        (Mode::Copy, 0, 3, [LOW; 4]),
        (Mode::Over, 0x0f, 2, [Rgb::WHITE, Rgb::WHITE, HIGH, HIGH]),
        (Mode::Over, 0, 2, [Rgb::WHITE; 4]),
        (Mode::Erase, 0x0f, 2, [Rgb::WHITE, Rgb::WHITE, LOW, LOW]),
        (Mode::Min, 0x0f, i32::MIN, [Rgb::WHITE; 4]),
    ] {
        let mut cells = [WHITE; 4];
        paint_bits(&mut cells, brush_of(mode), byte, column, true);
        let [a, b, c, d] = cells;
        same!(rt; [a.rgb, b.rgb, c.rgb, d.rgb], due, (byte, mode));
        let mut cells = [WHITE; 4];
        paint_bits(&mut cells, brush_of(mode), byte, column, false);
        let [a, b, c, d] = cells;
        same!(rt; [a.rgb, b.rgb, c.rgb, d.rgb], due, (byte, mode));
    }
}

#[test]
fn bits_come_again_behind_the_eighth_cell(rt: HostRuntime) {
    let mut cells = [WHITE; 11];
    paint_bits(&mut cells, brush_of(Mode::Copy), 0xa1, 2, true);
    let [a, b, c, d, e, f, g, h, i, j, k] = cells;
    // The bits of the byte from the left are 1 0 1 0 0 0 0 1, and the first cell has the third.
    same!(rt; [a.rgb, b.rgb, c.rgb, d.rgb], [HIGH, LOW, LOW, LOW]);
    same!(rt; [e.rgb, f.rgb, g.rgb, h.rgb], [LOW, HIGH, HIGH, LOW]);
    same!(rt; [i.rgb, j.rgb, k.rgb], [HIGH, LOW, LOW]);
}

#[test]
fn colors_and_bits_begin_at_a_cell(rt: HostRuntime) {
    let colors = [Color::Solid(LOW), Color::Clear, Color::Solid(HIGH)];
    let mut cells = [WHITE; 4];
    paint_colors(&mut cells, 1, brush_of(Mode::Copy), &colors);
    let [a, b, c, d] = cells;
    same!(rt; [a.rgb, b.rgb, c.rgb, d.rgb], [Rgb::WHITE, LOW, Rgb::WHITE, HIGH]);
    for clean in [true, false] {
        let mut cells = [WHITE; 4];
        let mask = 0xa000_0000_0000_0000;
        paint_marked(
            &mut cells,
            1,
            brush_of(Mode::Copy),
            Color::Solid(LOW),
            mask,
            clean,
        );
        let [a, b, c, d] = cells;
        same!(rt; [a.rgb, b.rgb, c.rgb, d.rgb], [Rgb::WHITE, LOW, Rgb::WHITE, LOW], clean);
    }
}

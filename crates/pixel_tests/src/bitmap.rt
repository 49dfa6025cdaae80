use be_bitmap::{Bitmap, BitmapFault};
use be_color::{Color, Rgb};
use std::alloc::Global;
use std::process::Abort;
use std::test::Fail;

const RED: Color = Color::Solid(Rgb {
    red: 255,
    green: 0,
    blue: 0,
});

const BLUE: Color = Color::Solid(Rgb {
    red: 0,
    green: 0,
    blue: 255,
});

/// What came of pixels: how many were handed back.
#[derive(Clone, Copy, Debug, PartialEq, Eq)]
enum Kind {
    Made,
    TooLarge(usize),
    WrongLength(usize),
}

fn kind_of(made: &Result<Bitmap, BitmapFault>) -> Kind {
    match made {
        Ok(_) => Kind::Made,
        Err(BitmapFault::TooLarge(back)) => Kind::TooLarge(back.len()),
        Err(BitmapFault::WrongLength(back)) => Kind::WrongLength(back.len()),
    }
}

const SIDES: [(u16, u16, usize, Kind); 12] = [
    (256, 256, 65536, Kind::Made),
    (256, 256, 65535, Kind::WrongLength(65535)),
    (257, 1, 257, Kind::TooLarge(257)),
    (1, 257, 257, Kind::TooLarge(257)),
    (257, 1, 3, Kind::TooLarge(3)),
    (65535, 65535, 0, Kind::TooLarge(0)),
    (0, 0, 0, Kind::Made),
    (0, 256, 0, Kind::Made),
    (0, 0, 1, Kind::WrongLength(1)),
    (2, 2, 3, Kind::WrongLength(3)),
    (2, 2, 5, Kind::WrongLength(5)),
    (2, 2, 4, Kind::Made),
];

#[test]
fn sides_and_numbers_of_pixels(rt: HostRuntime) -> Result<(), Fail> {
    for (width, height, count, due) in &SIDES {
        let pixels = vec![in rt.alloc(); BLUE; *count]?;
        let made = Bitmap::new(*width, *height, pixels);
        same!(rt; kind_of(&made), *due, (*width, *height, *count));
    }
    Ok(())
}

/// Three columns and two rows: red, clear, blue; blue, blue, red.
fn three_by_two(rt: &(impl Abort + Alloc<A = Global>)) -> Result<Bitmap, Fail> {
    let pixels = vec![in rt.alloc(); RED, Color::Clear, BLUE, BLUE, BLUE, RED]?;
    match Bitmap::new(3, 2, pixels) {
        Ok(bitmap) => Ok(bitmap),
        Err(_) => panic!(rt; "six pixels are three by two"),
    }
}

const PIXELS: [(i32, i32, Option<Color>); 11] = [
    (0, 0, Some(RED)),
    (1, 0, Some(Color::Clear)),
    (2, 0, Some(BLUE)),
    (0, 1, Some(BLUE)),
    (2, 1, Some(RED)),
    (3, 0, None),
    (0, 2, None),
    (2, 2, None),
    (-1, 0, None),
    (0, -1, None),
    (i32::MIN, i32::MAX, None),
];

#[test]
fn pixels_of_a_bitmap(rt: HostRuntime) -> Result<(), Fail> {
    let bitmap = three_by_two(&rt)?;
    same!(rt; (bitmap.width(), bitmap.height()), (3, 2));
    for (x, y, color) in &PIXELS {
        same!(rt; bitmap.pixel(*x, *y), *color, (*x, *y));
    }
    Ok(())
}

const ROWS: [(usize, usize, &[Color]); 7] = [
    (0, 0, &[RED, Color::Clear, BLUE]),
    (0, 1, &[Color::Clear, BLUE]),
    (1, 0, &[BLUE, BLUE, RED]),
    (1, 2, &[RED]),
    (1, 3, &[]),
    (2, 0, &[]),
    (usize::MAX, usize::MAX, &[]),
];

#[test]
fn rows_of_a_bitmap(rt: HostRuntime) -> Result<(), Fail> {
    let bitmap = three_by_two(&rt)?;
    for (row, column, colors) in &ROWS {
        same!(rt; bitmap.row_from(*row, *column), *colors, (*row, *column));
    }
    Ok(())
}

//! A screen as letters, and walks from picture to picture.

use be_color::{Color, Rgb};
use be_geom::{Change, Rect};
use be_span::Cell;
use be_stack::WindowFlags;
use bitflags::Flags;
use desk_screen::{Child, Declared, Screen};
use std::alloc::Global;
use std::process::Abort;
use std::test::Fail;

/// The letter `r`.
pub const RED: Rgb = Rgb {
    red: 255,
    green: 0,
    blue: 0,
};

/// The letter `g`.
pub const GREEN: Rgb = Rgb {
    red: 0,
    green: 255,
    blue: 0,
};

/// The letter `b`.
pub const BLUE: Rgb = Rgb {
    red: 0,
    green: 0,
    blue: 255,
};

/// A change of a window, and the picture after it.
pub type Step<'a> = (u16, Change, &'a str);

/// A rectangle by its edges.
pub fn rect(left: i16, top: i16, right: i16, bottom: i16) -> Rect {
    Rect {
        left,
        top,
        right,
        bottom,
    }
}

/// A window without children.
pub fn window<'a>(frame: Rect, color: Color) -> Declared<'a> {
    with_children(frame, color, &[])
}

/// A window with children in its root view.
pub fn with_children<'a>(frame: Rect, color: Color, children: &'a [Child]) -> Declared<'a> {
    Declared {
        frame,
        flags: WindowFlags::empty(),
        color,
        children,
    }
}

/// A screen whose windows are all shown and clean.
pub fn shown(
    alloc: Global,
    width: u16,
    height: u16,
    windows: &[Declared<'_>],
) -> Result<Screen, Fail> {
    let mut screen = Screen::new(alloc, width, height, windows)?;
    for (w, _window) in (0..32).zip(windows) {
        screen.change(alloc, w, &Change::Show)?;
    }
    screen.clear_marks();
    Ok(screen)
}

/// The letter of a pixel: that of its colour, upper case where it is dirty, or '.' for the desktop.
fn letter_of(cell: Option<Cell>) -> char {
    let Some(cell) = cell else {
        return '.';
    };
    let letter = color_letter(cell.rgb);
    if cell.dirty {
        letter.to_ascii_uppercase()
    } else {
        letter
    }
}

/// 'd' is a window's pixel in the desktop's colour, and 'x' one in a colour of no test.
fn color_letter(rgb: Rgb) -> char {
    match rgb {
        RED => 'r',
        GREEN => 'g',
        BLUE => 'b',
        Rgb::WHITE => 'w',
        Rgb::BLACK => 'k',
        Rgb::DESKTOP => 'd',
        _ => 'x',
    }
}

/// The rows from the top, each from the left, with a stroke after each but the last.
pub fn picture(alloc: Global, screen: &Screen, width: i32, height: i32) -> Result<String, Fail> {
    let mut text = String::new(alloc);
    for y in 0..height {
        if y > 0 {
            text.push('/')?;
        }
        for x in 0..width {
            text.push(letter_of(screen.cell(x, y)))?;
        }
    }
    Ok(text)
}

/// Walks along the steps on a screen of so many columns and rows.
pub fn walk(
    rt: &(impl Abort + Alloc<A = Global>),
    screen: &mut Screen,
    size: (i32, i32),
    steps: &[Step<'_>],
) -> Result<(), Fail> {
    for (w, change, rows) in steps {
        let outcome = screen.change(rt.alloc(), *w, change);
        assert_eq!(rt; outcome, Ok(()), "{w} {change:?}");
        let now = picture(rt.alloc(), screen, size.0, size.1)?;
        assert_eq!(rt; now.as_str(), *rows, "{w} {change:?}");
    }
    Ok(())
}

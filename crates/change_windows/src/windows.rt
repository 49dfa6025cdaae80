use crate::fault::Hindrance;
use be_color::{Color, Rgb};
use be_geom::{Change, NoMemory, Rect};
use be_stack::WindowFlags;
use bitflags::Flags;
use desk_screen::{Declared, Screen};
use std::alloc::Global;

/// Where windows of 320 by 240 lie on a screen of 1,024 by 768.
#[derive(Clone, Copy, Debug, PartialEq, Eq)]
pub enum Layout {
    /// Each is a bit further down and to the right than the one before it, and in front of it.
    Stairs,
    /// So are all but the first, which none of them has a pixel in common with.
    Aside,
    /// So are all but the first, which is as large as the screen, and the last, which is 10 by 10
    /// and at the left top.
    Over,
}

/// A screen with so many windows, all shown and clean.
pub fn shown(alloc: Global, layout: Layout, windows: u8) -> Result<Screen, Hindrance> {
    let declared = declared(alloc, layout, windows)?;
    let mut screen = Screen::new(alloc, 1024, 768, &declared)?;
    for w in 0..windows {
        screen.change(alloc, u16::from(w), &Change::Show)?;
    }
    screen.clear_marks();
    Ok(screen)
}

fn declared<'a>(alloc: Global, layout: Layout, windows: u8) -> Result<Vec<Declared<'a>>, NoMemory> {
    let (first, width) = match layout {
        Layout::Stairs | Layout::Over => (0i16, 704i16),
        Layout::Aside => (340, 364),
    };
    let across = width.checked_div(i16::from(windows)).unwrap_or(0);
    let down = 528i16.checked_div(i16::from(windows)).unwrap_or(0);
    let last = windows.saturating_sub(1);
    let mut declared = Vec::with_capacity(alloc, usize::from(windows))?;
    let mut left = first;
    let mut top = 0i16;
    for w in 0..windows {
        let frame = match layout {
            Layout::Aside if w == 0 => frame((0, 0), (320, 240)),
            Layout::Over if w == 0 => frame((0, 0), (1024, 768)),
            Layout::Over if w == last => frame((0, 0), (10, 10)),
            _ => frame((left, top), (320, 240)),
        };
        declared.push(window(w, frame))?;
        left = left.saturating_add(across);
        top = top.saturating_add(down);
    }
    Ok(declared)
}

/// The frame with this left top, so many pixels wide and high.
fn frame(place: (i16, i16), size: (i16, i16)) -> Rect {
    let (left, top) = place;
    let (width, height) = size;
    Rect {
        left,
        top,
        right: left.saturating_add(width.saturating_sub(1)),
        bottom: top.saturating_add(height.saturating_sub(1)),
    }
}

fn window<'a>(w: u8, frame: Rect) -> Declared<'a> {
    Declared {
        frame,
        flags: WindowFlags::empty(),
        color: Color::Solid(Rgb {
            red: w,
            green: 90,
            blue: 200,
        }),
        children: &[],
    }
}

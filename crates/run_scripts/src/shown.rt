//! The screen, read pixel by pixel from the panes.
use be_color::Rgb;
use be_geom::NoMemory;
use be_lex::{write_natural, write_rgb};
use be_parts::Part;
use be_written::Page;
use std::alloc::Global;

const DESKTOP: Rgb = Rgb {
    red: 0x33,
    green: 0x66,
    blue: 0x98,
};

/// Writes each row of a screen of this size as its longest runs of one colour.
pub fn write_shown(
    alloc: Global,
    page: &mut Page,
    size: (u16, u16),
    parts: &[Part],
) -> Result<(), NoMemory> {
    let mut text = Vec::new(alloc);
    text.extend_from_slice(b"screen ")?;
    write_natural(&mut text, u64::from(size.0))?;
    text.push(b' ')?;
    write_natural(&mut text, u64::from(size.1))?;
    text.push(b'\n')?;
    for y in 0..size.1 {
        write_row(&mut text, size.0, y, parts)?;
    }
    page.text(text.as_slice())
}

fn write_row(text: &mut Vec<u8>, width: u16, y: u16, parts: &[Part]) -> Result<(), NoMemory> {
    write_natural(text, u64::from(y))?;
    let mut from = 0u16;
    let mut color = color_at(parts, 0, y);
    for x in 1..width {
        let next = color_at(parts, x, y);
        if next != color {
            write_run(text, x.saturating_sub(from), color)?;
            from = x;
            color = next;
        }
    }
    write_run(text, width.saturating_sub(from), color)?;
    text.push(b'\n')?;
    Ok(())
}

fn write_run(text: &mut Vec<u8>, count: u16, color: Rgb) -> Result<(), NoMemory> {
    text.push(b' ')?;
    write_natural(text, u64::from(count))?;
    text.push(b'x')?;
    write_rgb(text, color)
}

fn color_at(parts: &[Part], x: u16, y: u16) -> Rgb {
    for part in parts {
        if let Part::Pane(pane) = part {
            if let Some(cell) = pane.pane().spans.get(i32::from(x), i32::from(y)) {
                return cell.rgb;
            }
        }
    }
    DESKTOP
}

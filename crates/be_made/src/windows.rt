ghost use Rattle.be_made.specs.Drawing.{IsWritten, texts_from};
ghost use Rattle.be_made.specs.Made.{body_text, window_text};
ghost use Rattle.std.specs.Prelude.{OnOk};

use crate::draws::Draws;
use crate::words::{write_color, write_name, write_number};
use be_geom::NoMemory;

/// Eight windows.
pub(crate) fn write_windows(text: &mut Vec<u8>, draws: &mut Draws) -> Result<(), NoMemory>
    ensures { OnOk result (IsWritten (texts_from window_text 0 8) draws.old draws.new
        text.old.items text.new.items) }
{
    for window in 0..8u32 {
        write_window(text, draws, window)?;
    }
    Ok(())
}

fn write_window(text: &mut Vec<u8>, draws: &mut Draws, window: u32) -> Result<(), NoMemory>
    ensures { OnOk result (IsWritten (window_text window) draws.old draws.new
        text.old.items text.new.items) }
{
    let left = draws.below(400);
    let top = draws.below(300);
    let width = draws.below(200);
    let height = draws.below(150);
    let color = draws.below(16_777_216);
    text.extend_from_slice(b"window ")?;
    write_name(text, b'w', window)?;
    write_number(text, left)?;
    write_number(text, top)?;
    write_number(text, left + (width + 20))?;
    write_number(text, top + (height + 20))?;
    text.extend_from_slice(b" color=")?;
    write_color(text, color)?;
    text.push(b'\n')?;
    Ok(())
}

/// A body for each window, which draws a corner of it.
pub(crate) fn write_bodies(text: &mut Vec<u8>, draws: &mut Draws) -> Result<(), NoMemory>
    ensures { OnOk result (IsWritten (texts_from body_text 0 8) draws.old draws.new
        text.old.items text.new.items) }
{
    for window in 0..8u32 {
        write_body(text, draws, window)?;
    }
    Ok(())
}

fn write_body(text: &mut Vec<u8>, draws: &mut Draws, window: u32) -> Result<(), NoMemory>
    ensures { OnOk result (IsWritten (body_text window) draws.old draws.new
        text.old.items text.new.items) }
{
    let across = draws.below(20);
    let down = draws.below(20);
    text.extend_from_slice(b"draw ")?;
    write_name(text, b'w', window)?;
    text.extend_from_slice(b" root\nfill root 4 4")?;
    write_number(text, across + 4)?;
    write_number(text, down + 4)?;
    text.extend_from_slice(b" mixed\nend\n")?;
    Ok(())
}

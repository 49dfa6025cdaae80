ghost use Rattle.be_made.specs.Drawing.{IsWritten, texts_from};
ghost use Rattle.be_made.specs.Made.{press_text};
ghost use Rattle.std.specs.Prelude.{OnOk};

use crate::draws::Draws;
use crate::words::write_number;
use be_geom::NoMemory;

/// Twenty presses.
pub(crate) fn write_presses(text: &mut Vec<u8>, draws: &mut Draws) -> Result<(), NoMemory>
    ensures { OnOk result (IsWritten (texts_from press_text 0 20) draws.old draws.new
        text.old.items text.new.items) }
{
    for press in 0..20u32 {
        write_press(text, draws, press)?;
    }
    Ok(())
}

fn write_press(text: &mut Vec<u8>, draws: &mut Draws, press: u32) -> Result<(), NoMemory>
    ensures { OnOk result (IsWritten (press_text press) draws.old draws.new
        text.old.items text.new.items) }
{
    let x = draws.below(640);
    let y = draws.below(480);
    text.extend_from_slice(b"press")?;
    write_number(text, x)?;
    write_number(text, y)?;
    text.push(b'\n')?;
    Ok(())
}

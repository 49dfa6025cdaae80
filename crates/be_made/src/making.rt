ghost use Rattle.be_made.specs.Made.{made};
ghost use Rattle.std.specs.Prelude.{◌≡◌, IfOk};

use crate::apps::write_apps;
use crate::draws::Draws;
use crate::presses::write_presses;
use crate::windows::{write_bodies, write_windows};
use be_geom::NoMemory;
use std::alloc::Global;

/// The text of the script that is made of a number.
pub fn make(alloc: Global, number: u16) -> Result<Vec<u8>, NoMemory>
    ensures { IfOk result (λ text. text.items ≡ made number) }
{
    let mut draws = Draws::new(number);
    let mut text = Vec::new(alloc);
    text.extend_from_slice(b"screen 640 480\n")?;
    write_windows(&mut text, &mut draws)?;
    write_bodies(&mut text, &mut draws)?;
    write_apps(&mut text, &mut draws)?;
    write_presses(&mut text, &mut draws)?;
    Ok(text)
}

ghost use Rattle.std.specs.Prelude.{◌≡◌, IfOk};
ghost use Rattle.be_picture.specs.Text.{picture_text};

use crate::picture::Picture;
use be_command::{Names, write_command};
use be_geom::NoMemory;
use std::alloc::Global;

/// Writes a picture: for each command its line, in the one spelling that it has. It costs a few
/// steps for each byte.
#[tactic(auto, unfolding(crate::specs::Text::picture_text))]
pub fn write_picture(alloc: Global, picture: &Picture, names: &Names) -> Result<Vec<u8>, NoMemory>
    ensures { IfOk result (λ text. text.items ≡ picture_text names.now picture.now) }
{
    let mut text = Vec::new(alloc);
    for command in picture.commands() {
        text.extend_from_slice(&write_command(alloc, command, names)?)?;
        text.push(b'\n')?;
    }
    Ok(text)
}

ghost use Rattle.std.specs.Prelude.{◌≡◌, ◌++◌, is_ok, if◌then◌else◌};
ghost use Rattle.be_lex.specs.Modes.{mode_of, mode_text};

use be_color::Mode;
use be_geom::NoMemory;

/// The drawing mode that a word names.
#[tactic(auto, unfolding(crate::specs::Modes::mode_of))]
pub fn read_mode(word: &[u8]) -> Option<Mode>
    ensures { result ≡ mode_of word.now }
{
    if word == b"copy".as_slice() {
        Some(Mode::Copy)
    } else if word == b"over".as_slice() {
        Some(Mode::Over)
    } else if word == b"erase".as_slice() {
        Some(Mode::Erase)
    } else if word == b"invert".as_slice() {
        Some(Mode::Invert)
    } else if word == b"add".as_slice() {
        Some(Mode::Add)
    } else if word == b"subtract".as_slice() {
        Some(Mode::Subtract)
    } else if word == b"blend".as_slice() {
        Some(Mode::Blend)
    } else if word == b"min".as_slice() {
        Some(Mode::Min)
    } else if word == b"max".as_slice() {
        Some(Mode::Max)
    } else if word == b"select".as_slice() {
        Some(Mode::Select)
    } else {
        None
    }
}

/// Appends a mode's word. Without memory nothing is appended.
pub fn write_mode(out: &mut Vec<u8>, mode: Mode) -> Result<(), NoMemory>
    ensures { out.new.items
        ≡ (if is_ok result then out.old.items ++ mode_text mode else out.old.items) }
{
    out.extend_from_slice(mode_text(mode))?;
    Ok(())
}

#[tactic(auto, unfolding(crate::specs::Modes::mode_text))]
fn mode_text(mode: Mode) -> &'static [u8]
    ensures { result.now ≡ mode_text mode }
{
    match mode {
        Mode::Copy => b"copy",
        Mode::Over => b"over",
        Mode::Erase => b"erase",
        Mode::Invert => b"invert",
        Mode::Add => b"add",
        Mode::Subtract => b"subtract",
        Mode::Blend => b"blend",
        Mode::Min => b"min",
        Mode::Max => b"max",
        Mode::Select => b"select",
    }
}

ghost use Rattle.std.specs.Prelude.{◌≡◌, ◌++◌, is_ok, if◌then◌else◌};
ghost use Rattle.be_lex.specs.Colors.{rgb_of, color_of, pixel_of, rgb_text, color_text};

use crate::hex_word::read_hex;
use be_color::{Color, Rgb};
use be_geom::NoMemory;
use hex::encode_to_slice;

/// Six hexadecimal digits.
#[tactic(auto, unfolding(crate::specs::Colors::rgb_of))]
pub fn read_rgb(word: &[u8]) -> Option<Rgb>
    ensures { result ≡ rgb_of word.now }
{
    let [red, green, blue] = read_hex::<3>(word)?;
    Some(Rgb { red, green, blue })
}

/// Six hexadecimal digits, or `clear` for the transparent colour.
#[tactic(auto, unfolding(crate::specs::Colors::color_of))]
pub fn read_color(word: &[u8]) -> Option<Color>
    ensures { result ≡ color_of word.now }
{
    if word == b"clear".as_slice() {
        return Some(Color::Clear);
    }
    Some(Color::Solid(read_rgb(word)?))
}

/// Six hexadecimal digits, or `------` for the transparent colour.
#[tactic(auto, unfolding(crate::specs::Colors::pixel_of))]
pub fn read_pixel(word: &[u8]) -> Option<Color>
    ensures { result ≡ pixel_of word.now }
{
    if word == b"------".as_slice() {
        return Some(Color::Clear);
    }
    Some(Color::Solid(read_rgb(word)?))
}

/// Appends a colour's six digits. Without memory nothing is appended.
#[tactic(auto, unfolding(crate::specs::Colors::rgb_text))]
pub fn write_rgb(out: &mut Vec<u8>, rgb: Rgb) -> Result<(), NoMemory>
    ensures { out.new.items
        ≡ (if is_ok result then out.old.items ++ rgb_text rgb else out.old.items) }
{
    let mut digits = [0; 6];
    let written = encode_to_slice([rgb.red, rgb.green, rgb.blue], &mut digits);
    prove!(written.is_ok());
    out.extend_from_slice(&digits)?;
    Ok(())
}

/// Appends the one word of a colour. Without memory nothing is appended.
#[tactic(auto, unfolding(crate::specs::Colors::color_text))]
pub fn write_color(out: &mut Vec<u8>, color: Color) -> Result<(), NoMemory>
    ensures { out.new.items
        ≡ (if is_ok result then out.old.items ++ color_text color else out.old.items) }
{
    match color {
        Color::Solid(rgb) => write_rgb(out, rgb),
        Color::Clear => {
            out.extend_from_slice(b"clear")?;
            Ok(())
        }
    }
}

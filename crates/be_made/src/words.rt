ghost use Rattle.std.specs.Prelude.{◌≡◌, [], ◌∷◌, ◌++◌, ◌<◌, OnOk};
ghost use Rattle.std.specs.Fmt.{decimal};
ghost use Rattle.be_made.specs.Made.{color_word, name, step_word};

use be_color::Rgb;
use be_geom::NoMemory;
use be_lex::{write_natural, write_number as write_signed, write_rgb};

/// A name of a letter and a number.
pub(crate) fn write_name(text: &mut Vec<u8>, letter: u8, number: u32) -> Result<(), NoMemory>
    ensures { OnOk result (text.new.items ≡ text.old.items ++ name (letter ∷ []) number) }
{
    text.push(letter)?;
    write_natural(text, u64::from(number))
}

/// A number behind other words.
pub(crate) fn write_number(text: &mut Vec<u8>, number: u32) -> Result<(), NoMemory>
    ensures { OnOk result (text.new.items ≡ text.old.items ++ 32 ∷ decimal number) }
{
    text.push(b' ')?;
    write_natural(text, u64::from(number))
}

/// A number from -20 to 20 behind other words: how far it lies from -20 is told.
pub(crate) fn write_distance(text: &mut Vec<u8>, number: u32) -> Result<(), NoMemory>
    requires { number < 41 }
    ensures { OnOk result (text.new.items ≡ text.old.items ++ 32 ∷ step_word number) }
{
    text.push(b' ')?;
    write_signed(text, i64::from(number) - 20)
}

/// A colour of 24 bits.
#[tactic(auto, unfolding(be_lex::specs::Colors::rgb_text))]
pub(crate) fn write_color(text: &mut Vec<u8>, color: u32) -> Result<(), NoMemory>
    requires { color < 16777216 }
    ensures { OnOk result (text.new.items ≡ text.old.items ++ color_word color) }
{
    let rgb = Rgb {
        red: (color / 65_536) as u8,
        green: (color / 256 % 256) as u8,
        blue: (color % 256) as u8,
    };
    write_rgb(text, rgb)
}

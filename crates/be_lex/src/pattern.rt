ghost use Rattle.std.specs.Prelude.{◌≡◌, ◌++◌, is_ok, if◌then◌else◌};
ghost use Rattle.be_lex.specs.Patterns.{pattern_of, pattern_text};

use crate::hex_word::read_hex;
use be_color::Pattern;
use be_geom::NoMemory;
use hex::encode_to_slice;

/// `high`, `low`, `mixed`, or sixteen hexadecimal digits, the top row first.
#[tactic(auto, unfolding(crate::specs::Patterns::pattern_of))]
pub fn read_pattern(word: &[u8]) -> Option<Pattern>
    ensures { result ≡ pattern_of word.now }
{
    match word {
        b"high" => Some(Pattern::HIGH),
        b"low" => Some(Pattern::LOW),
        b"mixed" => Some(Pattern::MIXED),
        _ => Some(Pattern {
            rows: read_hex(word)?,
        }),
    }
}

/// Appends the canonical word of a pattern. Without memory nothing is appended.
#[tactic(auto, unfolding(crate::specs::Patterns::pattern_text))]
pub fn write_pattern(out: &mut Vec<u8>, pattern: Pattern) -> Result<(), NoMemory>
    ensures { out.new.items
        ≡ (if is_ok result then out.old.items ++ pattern_text pattern else out.old.items) }
{
    let mut digits = [0; 16];
    let word = if pattern == Pattern::HIGH {
        b"high".as_slice()
    } else if pattern == Pattern::LOW {
        b"low".as_slice()
    } else if pattern == Pattern::MIXED {
        b"mixed".as_slice()
    } else {
        let written = encode_to_slice(pattern.rows, &mut digits);
        prove!(written.is_ok());
        &digits
    };
    out.extend_from_slice(word)?;
    Ok(())
}

ghost use Rattle.std.specs.Prelude.{◌≡◌, ◌^◌, ◌-◌, ◌*◌, min, length, position, MatchResult};
ghost use Rattle.be_font.specs.Widths.{is_outside_font};

use thiserror::Error;

/// The columns from one glyph's first to that of the next.
const ADVANCE: u64 = 6;

/// A text has a byte that the font has no glyph for: the first one is at this place, counted from
/// 0.
#[derive(Clone, Copy, Debug, PartialEq, Eq, Error)]
#[error("byte {at} isn't in the font")]
pub struct NotInFont {
    pub at: usize,
}

/// How many columns a text moves the pen by: `BFont::StringWidth`. Linear in the text. Texts that
/// are so long that the width has no u64 don't fit into memory; for them it would be the last u64.
pub fn width_of(text: &[u8]) -> Result<u64, NotInFont>
    ensures first { MatchResult result (λ _. position is_outside_font text.now ≡ None)
        (λ fault. position is_outside_font text.now ≡ Some fault.at) }
    ensures width { MatchResult result (λ width. width ≡ min (6 * length text.now) (2 ^ 64 - 1))
        (λ _. Unit {0}) }
{
    match first_outside(text) {
        Some(at) => Err(NotInFont { at }),
        None => Ok((text.len() as u64).saturating_mul(ADVANCE)),
    }
}

fn first_outside(text: &[u8]) -> Option<usize>
    ensures { result ≡ position is_outside_font text.now }
{
    text.iter().position(|byte| is_outside_font(*byte))
}

fn is_outside_font(byte: u8) -> bool
    ensures { result ≡ is_outside_font byte }
{
    byte < 32 || 126 < byte
}

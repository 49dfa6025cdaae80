ghost use Rattle.std.specs.Prelude.{◌≡◌};
ghost use Rattle.std.specs.List.{list_all};
ghost use Rattle.be_lex.specs.Hex.{is_hex_digit, hex_bytes};

use hex::FromHex;

/// The bytes that a word writes, where it is the digits of just so many.
#[tactic(auto, unfolding(crate::specs::Hex::hex_bytes))]
pub(crate) fn read_hex<const N: usize>(word: &[u8]) -> Option<[u8; N]>
    ensures { result ≡ hex_bytes N word.now }
{
    if are_hex_digits(word) {
        <[u8; N] as FromHex>::from_hex(word).ok()
    } else {
        None
    }
}

fn are_hex_digits(word: &[u8]) -> bool
    ensures { result ≡ list_all is_hex_digit word.now }
{
    word.iter()
        .all(|c| c.is_ascii_digit() || b'a' <= *c && *c <= b'f')
}

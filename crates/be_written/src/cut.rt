ghost use Rattle.std.specs.Prelude.{◌≡◌, ◌<◌, ◌^◌, ℤ, List, ℕ, [], ◌∷◌, ◌++◌, length};
ghost use Rattle.std.specs.Int.{w16, w32, to_le_bytes};
ghost use Rattle.be_flat.specs.Codes.{code_of};
ghost use Rattle.be_flat.specs.Grammar.{SpellsCoordinate, SpellsInt};
ghost use Rattle.be_message.specs.declared.kind.Kind.{Kind};

// What the parts of a flattened message are. Bytes that spell none give some part or other.

use be_message::Kind;

/// So many bytes, and those behind them.
pub(crate) fn cut(bytes: &[u8], count: usize) -> (&[u8], &[u8])
    ensures { (front behind : List ℕ) → bytes.now ≡ front ++ behind → length front ≡ count
        → (result.0.now ≡ front) × (result.1.now ≡ behind) }
{
    bytes.split_at(count.min(bytes.len()))
}

pub(crate) fn byte_of(bytes: &[u8]) -> u8
    ensures { (n : ℕ) → bytes.now ≡ n ∷ [] → result ≡ n }
{
    match bytes {
        [byte] => *byte,
        _ => 0,
    }
}

pub(crate) fn length_of(bytes: &[u8]) -> u16
    ensures { (n : ℕ) → n < 2 ^ 16 → bytes.now ≡ to_le_bytes w16 n → result ≡ n }
{
    match bytes {
        [low, high] => u16::from_le_bytes([*low, *high]),
        _ => 0,
    }
}

pub(crate) fn word_of(bytes: &[u8]) -> u32
    ensures { (n : ℕ) → n < 2 ^ 32 → bytes.now ≡ to_le_bytes w32 n → result ≡ n }
{
    match bytes {
        [a, b, c, d] => u32::from_le_bytes([*a, *b, *c, *d]),
        _ => 0,
    }
}

pub(crate) fn coordinate_of(bytes: &[u8]) -> i16
    ensures { (z : ℤ) → SpellsCoordinate bytes.now z → result ≡ z }
{
    length_of(bytes).cast_signed()
}

pub(crate) fn int_of(bytes: &[u8]) -> i32
    ensures { (z : ℤ) → SpellsInt bytes.now z → result ≡ z }
{
    word_of(bytes).cast_signed()
}

/// The type that four letters are the code of.
pub(crate) fn kind_of(letters: &[u8]) -> Kind
    ensures { (kind : Kind) → letters.now ≡ code_of kind → result ≡ kind }
{
    match letters {
        b"BOOL" => Kind::Bool,
        b"LONG" => Kind::Int,
        b"CSTR" => Kind::Text,
        b"BPNT" => Kind::Point,
        b"RECT" => Kind::Rect,
        _ => Kind::Message,
    }
}

ghost use Rattle.std.specs.Prelude.{◌≡◌, nat_eq};
ghost use Rattle.std.specs.List.{list_any, starts_with};
ghost use Rattle.be_flat.specs.Codes.{code_of, plain_kinds, begin_code, kind_spelt};

use be_message::Kind;

/// Whether the letters are the first of a type's code, where messages may lie within the message or
/// not.
#[tactic(auto, unfolding(crate::specs::Codes::begin_code))]
pub(crate) fn begin_code(nested: bool, letters: &[u8]) -> bool
    ensures { result ≡ begin_code nested letters.now }
{
    nested && b"MSGG".starts_with(letters) || begin_plain_code(letters)
}

fn begin_plain_code(letters: &[u8]) -> bool
    ensures { result ≡ list_any (λ k. starts_with nat_eq (code_of k) letters.now) plain_kinds }
{
    b"BOOL".starts_with(letters)
        || b"LONG".starts_with(letters)
        || b"CSTR".starts_with(letters)
        || b"BPNT".starts_with(letters)
        || b"RECT".starts_with(letters)
}

/// The type that four letters are the code of.
#[tactic(auto, unfolding(crate::specs::Codes::kind_spelt))]
pub(crate) fn kind_spelt(letters: &[u8]) -> Kind
    ensures { result ≡ kind_spelt letters.now }
{
    match letters {
        b"BOOL" => Kind::Bool,
        b"LONG" => Kind::Int,
        b"CSTR" => Kind::Text,
        b"BPNT" => Kind::Point,
        b"RECT" => Kind::Rect,
        _ => Kind::Message,
    }
}

/// The four letters of a type's code.
pub(crate) fn code_of(kind: Kind) -> &'static [u8]
    ensures { result.now ≡ code_of kind }
{
    match kind {
        Kind::Bool => b"BOOL",
        Kind::Int => b"LONG",
        Kind::Text => b"CSTR",
        Kind::Point => b"BPNT",
        Kind::Rect => b"RECT",
        Kind::Message => b"MSGG",
    }
}

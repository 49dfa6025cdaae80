ghost use Rattle.std.specs.Prelude.{◌≡◌, ◌++◌, is_ok, if◌then◌else◌};
ghost use Rattle.std.specs.List.{list_all};
ghost use Rattle.be_lex.specs.Codes.{is_code_byte, code_of, code_text, is_reserved_code};

use be_geom::NoMemory;

/// The code of four letters, the first in its highest byte.
#[tactic(auto, unfolding(crate::specs::Codes::is_code, crate::specs::Codes::code_of))]
pub fn read_code(word: &[u8]) -> Option<u32>
    ensures { result ≡ code_of word.now }
{
    match word {
        [a, b, c, d] if are_code_bytes(word) => Some(u32::from_be_bytes([*a, *b, *c, *d])),
        _ => None,
    }
}

/// Appends the four letters of a code. Without memory nothing is appended.
#[tactic(auto, unfolding(crate::specs::Codes::code_text))]
pub fn write_code(out: &mut Vec<u8>, code: u32) -> Result<(), NoMemory>
    ensures { out.new.items
        ≡ (if is_ok result then out.old.items ++ code_text code else out.old.items) }
{
    out.extend_from_slice(&code.to_be_bytes())?;
    Ok(())
}

/// Whether the code is `UPDT`, `NORE` or `NOTU`, which the server alone sends.
pub fn is_reserved_code(code: u32) -> bool
    ensures { result ≡ is_reserved_code code }
{
    code == 0x5550_4454 || code == 0x4e4f_5245 || code == 0x4e4f_5455
}

fn are_code_bytes(word: &[u8]) -> bool
    ensures { result ≡ list_all is_code_byte word.now }
{
    word.iter().all(|b| b.is_ascii_alphanumeric() || *b == b'_')
}

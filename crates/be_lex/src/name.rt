ghost use Rattle.std.specs.Prelude.{◌≡◌};
ghost use Rattle.std.specs.List.{list_all};
ghost use Rattle.be_facts.specs.Names.{is_name_byte};
ghost use Rattle.be_lex.specs.Names.{is_name_within, is_name, is_field_name};
ghost use Rattle.be_lex.specs.Names.{is_reserved_name};

/// Whether the word is a name of a script's things: 1 to 16 of a to z, 0 to 9 and `_`, a letter
/// first.
pub fn is_name(word: &[u8]) -> bool
    ensures { result ≡ is_name word.now }
{
    is_name_within(16, word)
}

/// Whether the word is a name of a message's fields: the same, of 1 to 32 bytes.
pub fn is_field_name(word: &[u8]) -> bool
    ensures { result ≡ is_field_name word.now }
{
    is_name_within(32, word)
}

/// Whether the word is `window`, `root`, `common` or `none`.
#[tactic(auto, unfolding(crate::specs::Names::is_reserved_name))]
pub fn is_reserved_name(word: &[u8]) -> bool
    ensures { result ≡ is_reserved_name word.now }
{
    word == b"window".as_slice()
        || word == b"root".as_slice()
        || word == b"common".as_slice()
        || word == b"none".as_slice()
}

#[tactic(auto, unfolding(crate::specs::Names::is_name_within))]
fn is_name_within(most: usize, word: &[u8]) -> bool
    ensures { result ≡ is_name_within most word.now }
{
    match word {
        [] => false,
        [first, others @ ..] => {
            first.is_ascii_lowercase() && are_name_bytes(others) && word.len() <= most
        }
    }
}

fn are_name_bytes(bytes: &[u8]) -> bool
    ensures { result ≡ list_all is_name_byte bytes.now }
{
    bytes.iter().all(|b| b.is_ascii_lowercase() || b.is_ascii_digit() || *b == b'_')
}

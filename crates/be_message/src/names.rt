ghost use Rattle.std.specs.Prelude.{◌≡◌};
ghost use Rattle.std.specs.List.{list_all};
ghost use Rattle.be_facts.specs.Names.{is_name_byte};
ghost use Rattle.be_message.specs.Names.{is_name, is_text_byte, is_text};

const MOST_NAME_BYTES: usize = 32;

const MOST_TEXT_BYTES: usize = 1024;

/// Whether a field may have the name.
#[tactic(auto, unfolding(crate::specs::Names::is_name))]
pub(crate) fn is_name(name: &[u8]) -> bool
    ensures { result ≡ is_name name.now }
{
    match name {
        [] => false,
        [first, rest @ ..] => {
            first.is_ascii_lowercase() && are_name_bytes(rest) && name.len() <= MOST_NAME_BYTES
        }
    }
}

fn are_name_bytes(bytes: &[u8]) -> bool
    ensures { result ≡ list_all is_name_byte bytes.now }
{
    bytes.iter().all(|byte| is_name_byte(*byte))
}

fn is_name_byte(byte: u8) -> bool
    ensures { result ≡ is_name_byte byte }
{
    byte.is_ascii_lowercase() || byte.is_ascii_digit() || byte == b'_'
}

/// Whether a message can hold the text.
#[tactic(auto, unfolding(crate::specs::Names::is_text))]
pub(crate) fn is_text(text: &[u8]) -> bool
    ensures { result ≡ is_text text.now }
{
    are_text_bytes(text) && text.len() <= MOST_TEXT_BYTES
}

fn are_text_bytes(bytes: &[u8]) -> bool
    ensures { result ≡ list_all is_text_byte bytes.now }
{
    bytes.iter().all(|byte| is_text_byte(*byte))
}

fn is_text_byte(byte: u8) -> bool
    ensures { result ≡ is_text_byte byte }
{
    (32..=126).contains(&byte)
}

ghost use Rattle.std.specs.Prelude.{◌≡◌, ℕ, List, [], ◌∷◌, ◌++◌, OnOk};
ghost use Rattle.std.specs.Fmt.{decimal, signed_decimal};
ghost use Rattle.be_lex.specs.Codes.{code_text};
ghost use Rattle.be_lex.specs.Colors.{rgb_text};

use be_color::Rgb;
use be_geom::NoMemory;
use be_lex::{write_code, write_natural, write_number, write_rgb};
use std::alloc::Global;
use std::marker::Model;

/// Text that is put together piece by piece, seen as its bytes. Where there is no memory for a
/// piece it is open what was added.
#[derive(Drop)]
pub struct Page {
    bytes: Vec<u8>,
}

impl Model for Page {
    ghost Value = { List ℕ };

    ghost view = { λ p. p.bytes.items };
}

impl Page {
    /// An empty page. It takes no memory.
    pub fn new(alloc: Global) -> Page
        ensures { result ≡ [] }
    {
        Page {
            bytes: Vec::new(alloc),
        }
    }

    /// Its bytes.
    pub fn as_slice(&self) -> &[u8]
        ensures { result.now ≡ self.now }
    {
        self.bytes.as_slice()
    }

    /// Its bytes, handed over.
    pub fn into_bytes(self) -> Vec<u8>
        ensures { result.items ≡ self }
    {
        self.bytes
    }

    /// Adds a text.
    pub fn text(&mut self, text: &[u8]) -> Result<(), NoMemory>
        ensures { OnOk result (self.new ≡ self.old ++ text.now) }
    {
        self.bytes.extend_from_slice(text)?;
        Ok(())
    }

    pub(crate) fn number(&mut self, number: u64) -> Result<(), NoMemory>
        ensures { OnOk result (self.new ≡ self.old ++ decimal number) }
    {
        write_natural(&mut self.bytes, number)
    }

    /// A number, `-` before a negative one.
    pub(crate) fn signed(&mut self, number: i64) -> Result<(), NoMemory>
        ensures { OnOk result (self.new ≡ self.old ++ signed_decimal number) }
    {
        write_number(&mut self.bytes, number)
    }

    /// The four letters of a code.
    pub(crate) fn code(&mut self, code: u32) -> Result<(), NoMemory>
        ensures { OnOk result (self.new ≡ self.old ++ code_text code) }
    {
        write_code(&mut self.bytes, code)
    }

    /// A colour, by its six digits.
    pub(crate) fn rgb(&mut self, rgb: Rgb) -> Result<(), NoMemory>
        ensures { OnOk result (self.new ≡ self.old ++ rgb_text rgb) }
    {
        write_rgb(&mut self.bytes, rgb)
    }

    /// A word behind others.
    pub(crate) fn word(&mut self, word: &[u8]) -> Result<(), NoMemory>
        ensures { OnOk result (self.new ≡ self.old ++ 32 ∷ word.now) }
    {
        self.text(b" ")?;
        self.text(word)
    }

    /// A number behind other words.
    pub(crate) fn number_word(&mut self, number: u64) -> Result<(), NoMemory>
        ensures { OnOk result (self.new ≡ self.old ++ 32 ∷ decimal number) }
    {
        self.text(b" ")?;
        self.number(number)
    }

    /// Adds a line feed.
    pub fn end_line(&mut self) -> Result<(), NoMemory>
        ensures { OnOk result (self.new ≡ self.old ++ 10 ∷ []) }
    {
        self.text(b"\n")
    }
}

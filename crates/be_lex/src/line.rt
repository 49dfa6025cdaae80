ghost use Rattle.std.specs.Prelude.{◌≡◌, ◌<◌, ◌∷◌, [], length, MatchOption, OnSome};
ghost use Rattle.be_lex.specs.Lines.{lines_of, has_return, text_of, is_printable};

use crate::word::place_of;
use std::marker::Model;

/// The lines of a text that are still to be read, seen as the bytes that are left of it.
#[derive(Drop)]
pub struct Lines<'a> {
    rest: &'a [u8],
}

impl<'a> Model for Lines<'a> {
    ghost use Rattle.std.specs.Prelude.{ℕ, List};

    ghost Value = { List ℕ };

    ghost view = { λ l. l.rest.now };
}

impl<'a> Lines<'a> {
    /// All lines of a text.
    pub fn of(text: &'a [u8]) -> Lines<'a>
        ensures { result ≡ text.now }
    {
        Lines { rest: text }
    }

    /// What is left, from the byte behind the last line's line feed on.
    pub fn rest(&self) -> &'a [u8]
        ensures { result.now ≡ self.now }
    {
        self.rest
    }

    /// The next line.
    pub fn next(&mut self) -> Option<Line<'a>>
        ensures lines { MatchOption result ((lines_of self.old ≡ []) × (self.new ≡ self.old))
            (λ line. lines_of self.old ≡ line ∷ lines_of self.new) }
        ensures shorter { OnSome result (length self.new < length self.old) }
    {
        let text = self.rest;
        if text.is_empty() {
            return None;
        }
        let (bytes, rest) = text.split_at(place_of(text, b'\n'));
        match rest {
            [_, behind @ ..] => {
                self.rest = behind;
                Some(Line { bytes, ended: true })
            }
            [] => {
                self.rest = rest;
                Some(Line {
                    bytes,
                    ended: false,
                })
            }
        }
    }
}

/// A line of a text, without the line feed that ends it.
#[derive(Drop)]
pub struct Line<'a> {
    bytes: &'a [u8],
    ended: bool,
}

impl<'a> Model for Line<'a> {
    ghost use Rattle.be_lex.specs.Lines.{Line as LineOf};

    ghost Value = { LineOf };

    ghost view = { λ l. record { bytes = l.bytes.now; ended = l.ended } };
}

impl<'a> Line<'a> {
    /// How many bytes it has, a carriage return at its end too.
    pub fn len(&self) -> usize
        ensures { result ≡ length self.now.bytes }
    {
        self.bytes.len()
    }

    /// Whether a line feed ends it: the last line of a text may lack its own.
    pub fn is_ended(&self) -> bool
        ensures { result ≡ self.now.ended }
    {
        self.ended
    }

    /// Whether a carriage return stands directly before its line feed.
    pub fn has_return(&self) -> bool
        ensures { result ≡ has_return self.now }
    {
        self.ended && matches!(self.bytes, [.., b'\r'])
    }

    /// Its bytes without that carriage return.
    pub fn text(&self) -> &'a [u8]
        ensures { result.now ≡ text_of self.now }
    {
        if self.has_return() {
            &self.bytes[..self.bytes.len() - 1]
        } else {
            self.bytes
        }
    }
}

/// Whether each byte is one that a text may have: 32 to 126.
pub fn is_printable(text: &[u8]) -> bool
    ensures { result ≡ is_printable text.now }
{
    text.iter().all(|b| 32 <= *b && *b <= 126)
}

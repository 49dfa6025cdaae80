ghost use Rattle.std.specs.Prelude.{◌≡◌, ◌==◌, ◌≤◌, ◌<◌, ◌∷◌, [], length, not, MatchOption, OnSome};
ghost use Rattle.std.specs.Prelude.{IfNone};
ghost use Rattle.std.specs.Option.{option_map};
ghost use Rattle.std.specs.List.{position_or_len};
ghost use Rattle.be_lex.specs.Words.{is_space, words_of, from_first, behind_word, is_passed_over};
ghost use Rattle.be_lex.specs.Words.{cut_at};

use std::marker::Model;

/// The words of a text that are still to be read, seen as the bytes that are left of it.
#[derive(Drop)]
pub struct Words<'a> {
    rest: &'a [u8],
}

impl<'a> Model for Words<'a> {
    ghost use Rattle.std.specs.Prelude.{ℕ, List};

    ghost Value = { List ℕ };

    ghost view = { λ w. w.rest.now };
}

impl<'a> Words<'a> {
    /// All words of a text.
    pub fn of(text: &'a [u8]) -> Words<'a>
        ensures { result ≡ text.now }
    {
        Words { rest: text }
    }

    /// What is left, from the byte behind the last word on.
    pub fn rest(&self) -> &'a [u8]
        ensures { result.now ≡ self.now }
    {
        self.rest
    }

    /// The next word. It looks at no byte behind it but one.
    pub fn next(&mut self) -> Option<&'a [u8]>
        ensures words { MatchOption result (words_of self.old ≡ [])
            (λ word. words_of self.old ≡ word.now ∷ words_of self.new) }
        ensures behind { OnSome result (self.new ≡ behind_word self.old) }
        ensures shorter { OnSome result (length self.new < length self.old) }
        ensures none { IfNone result (self.new ≡ self.old) }
    {
        let text = without_spaces(self.rest);
        if text.is_empty() {
            return None;
        }
        let (word, rest) = text.split_at(place_of(text, b' '));
        self.rest = rest;
        Some(word)
    }
}

/// Whether a line says nothing: it has no word, or is a comment.
#[tactic(auto, unfolding(crate::specs::Words::is_passed_over))]
pub fn is_passed_over(text: &[u8]) -> bool
    ensures { result ≡ is_passed_over text.now }
{
    match Words::of(text).next() {
        Some(word) => matches!(word, [b'#', ..]),
        None => true,
    }
}

/// What stands in a word before and behind the first of a byte.
pub fn cut_at(word: &[u8], byte: u8) -> Option<(&[u8], &[u8])>
    ensures { option_map (λ parts. (parts.0.now, parts.1.now)) result ≡ cut_at byte word.now }
{
    match word.split_at(place_of(word, byte)) {
        (before, [_, behind @ ..]) => Some((before, behind)),
        (_, []) => None,
    }
}

/// Where the byte first stands, or the length where it doesn't.
pub(crate) fn place_of(bytes: &[u8], byte: u8) -> usize
    ensures place { result ≡ position_or_len (λ b. b == byte) bytes.now }
    ensures within { result ≤ length bytes.now }
{
    for (place, b) in bytes.iter().enumerate() {
        if *b == byte {
            return place;
        }
    }
    bytes.len()
}

/// The text from its first byte on that isn't a space.
fn without_spaces(text: &[u8]) -> &[u8]
    ensures { result.now ≡ from_first (λ b. not (is_space b)) text.now }
{
    for (place, b) in text.iter().enumerate() {
        if *b != b' ' {
            return &text[place..];
        }
    }
    &text[text.len()..]
}

ghost use Rattle.std.specs.Prelude.{◌≡◌, ◌↔◌, ◌∷◌, [], MatchOption, IsTrue};
ghost use Rattle.be_report.specs.Lines.{words_between};

use be_lex::cut_at;
use std::marker::Model;

/// The words of a line that are still to be read. One space parts two words, so that spaces side by
/// side have an empty word between them.
#[derive(Drop)]
pub(crate) struct Spaced<'a> {
    text: Option<&'a [u8]>,
}

impl<'a> Model for Spaced<'a> {
    ghost use Rattle.std.specs.Prelude.{ℕ, List};
    ghost use Rattle.std.specs.Option.{option_copied};
    ghost use Rattle.be_report.specs.Lines.{words_left};

    ghost Value = { List (List ℕ) };

    ghost view = { λ s. words_left (option_copied s.text) };
}

impl<'a> Spaced<'a> {
    /// All words of a line.
    pub(crate) fn of(text: &'a [u8]) -> Spaced<'a>
        ensures { result ≡ words_between text.now }
    {
        Spaced { text: Some(text) }
    }

    /// Whether no word is left.
    pub(crate) fn is_empty(&self) -> bool
        ensures { IsTrue result ↔ (self.now ≡ []) }
    {
        match self.text {
            Some(_) => false,
            None => true,
        }
    }

    /// The next word. It looks at no byte behind it but one.
    pub(crate) fn next(&mut self) -> Option<&'a [u8]>
        ensures { MatchOption result (self.old ≡ []) (λ word. self.old ≡ word.now ∷ self.new) }
    {
        let text = self.text?;
        match cut_at(text, b' ') {
            Some((word, behind)) => {
                self.text = Some(behind);
                Some(word)
            }
            None => {
                self.text = None;
                Some(text)
            }
        }
    }
}

ghost use Rattle.std.specs.Prelude.{◌≡◌, ℕ, ◌==◌, ◌||◌, [], OnOk, OnErr};
ghost use Rattle.be_handler.specs.Words.{has_word};

use be_geom::NoMemory;
use std::alloc::Global;
use std::collections::BTreeSet;
use std::marker::Model;

/// The words that one handler has bodies for, in order.
#[derive(Debug, Drop)]
pub struct Words {
    words: BTreeSet<u32>,
}

impl Model for Words {
    ghost use Rattle.std.specs.Prelude.{ℕ, List};

    ghost Value = { List ℕ };

    ghost view = { λ w. w.words.keys };
}

impl Words {
    /// No word. It takes no memory.
    pub fn new(alloc: Global) -> Words
        ensures { result ≡ [] }
    {
        Words {
            words: BTreeSet::new(alloc),
        }
    }

    /// Whether the word is one of them. It takes the logarithm of their number.
    pub fn has(&self, what: u32) -> bool
        ensures { result ≡ has_word self.now what }
    {
        self.words.contains(&what)
    }

    /// Adds a word, which may be there already.
    pub fn add(&mut self, what: u32) -> Result<(), NoMemory>
        ensures ok { OnOk result
            ((word : ℕ) → has_word self.new word ≡ ((what == word) || has_word self.old word)) }
        ensures err { OnErr result (self.new ≡ self.old) }
    {
        self.words.insert(what)?;
        Ok(())
    }
}

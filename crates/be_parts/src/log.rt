ghost use Rattle.std.specs.Prelude.{◌≡◌, ◌<◌, ◌++◌, ◌∷◌, [], IfOk, IfSome, IfNone};
ghost use Rattle.be_parts.specs.Kept.{IsUnwritten, joined, note_in};

use be_geom::NoMemory;
use be_machine::Entry;
use std::alloc::Global;
use std::collections::VecDeque;
use std::marker::Model;

/// The entries that an activity made, each with its number in the history, the oldest first, and
/// what it noted of them, as text. It grows by doubling.
#[derive(Drop)]
pub struct Log {
    pairs: VecDeque<(u64, Entry)>,
    // The text of each entry of which something was noted.
    notes: Vec<Vec<u8>>,
}

impl Model for Log {
    ghost use Rattle.std.specs.Prelude.{◌-◌, min, vec_capacity, vec_len};
    ghost use Rattle.std.specs.VecDeque.{deque_len, deque_capacity};
    ghost use Rattle.be_parts.specs.Kept.{Logged, joined};

    ghost Value = { Logged };

    ghost view = { λ log. record {
      pairs = log.pairs.items;
      spare = min (deque_capacity log.pairs - deque_len log.pairs)
          (vec_capacity log.notes - vec_len log.notes);
      notes = joined log.notes.items;
    } };
}

impl Log {
    /// Without an entry. It takes no memory.
    pub fn new(alloc: Global) -> Log
        ensures { IsUnwritten result }
    {
        Log {
            pairs: VecDeque::new(alloc),
            notes: Vec::new(alloc),
        }
    }

    /// Asks for room for one entry more.
    pub fn make_room(&mut self) -> Result<(), NoMemory>
        ensures pairs { self.new.pairs ≡ self.old.pairs }
        ensures notes { self.new.notes ≡ self.old.notes }
        ensures room { IfOk result (λ _. 0 < self.new.spare) }
    {
        if self.pairs.try_reserve(1).is_err() || self.notes.try_reserve(1).is_err() {
            return Err(NoMemory);
        }
        Ok(())
    }

    /// Puts an entry behind the others, with the text that its maker noted of it, if any.
    pub fn enter(&mut self, number: u64, entry: Entry, note: Option<Vec<u8>>)
        requires room { 0 < self.old.spare }
        ensures pairs { self.new.pairs ≡ self.old.pairs ++ (number, entry) ∷ [] }
        ensures notes { self.new.notes ≡ self.old.notes ++ note_in note }
    {
        self.pairs.push_back_reserved((number, entry));
        if let Some(text) = note {
            self.notes.push_reserved(text);
        }
    }

    /// Takes the oldest entry out. What was noted stays.
    pub fn pop(&mut self) -> Option<(u64, Entry)>
        ensures oldest { IfSome result (λ pair. self.old.pairs ≡ pair ∷ self.new.pairs) }
        ensures none { IfNone result ((self.old.pairs ≡ []) × (self.new.pairs ≡ [])) }
        ensures notes { self.new.notes ≡ self.old.notes }
    {
        self.pairs.pop_front()
    }

    /// What was noted, text behind text.
    pub fn notes(&self) -> &[Vec<u8>]
        ensures { joined result.now ≡ self.now.notes }
    {
        self.notes.as_slice()
    }
}

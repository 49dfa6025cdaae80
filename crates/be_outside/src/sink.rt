ghost use Rattle.std.specs.Prelude.{◌≡◌, ℕ, ◌≤◌, List, Option, OnOk, OnErr};
ghost use Rattle.be_outside.specs.Faults.{FaultsRose};
ghost use Rattle.be_outside.specs.Telling.{with_end, TakesPrefix};

use crate::Failed;

/// Where bytes go.
pub trait Sink {
    /// The bytes that the sink holds, where it tells them.
    ghost held: { Self → Option (List ℕ) };

    /// How many calls have failed.
    ghost faults: { Self → ℕ };

    /// Appends the piece, or fails with a front part of it appended.
    fn put(&mut self, piece: &[u8]) -> Result<(), Failed>
        ensures appends { OnOk result (held self.new ≡ with_end (held self.old) piece.now) }
        ensures prefix { OnErr result (TakesPrefix (held self.old) (held self.new) piece.now) }
        ensures failed { OnErr result (FaultsRose (faults self.old) (faults self.new)) }
        ensures never_falls { faults self.old ≤ faults self.new };
}

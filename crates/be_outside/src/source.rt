ghost use Rattle.std.specs.Prelude.{◌≡◌, ℕ, ◌<◌, ◌≤◌, List, Option, length, take, drop, IfOk};
ghost use Rattle.std.specs.Prelude.{IfSome, OnErr};
ghost use Rattle.be_outside.specs.Faults.{FaultsRose};
ghost use Rattle.be_outside.specs.Telling.{with_front, IsDrained};

use thiserror::Error;

/// A call of a source or a sink failed.
#[derive(Clone, Copy, Debug, PartialEq, Eq, Error)]
#[error("the call failed")]
pub struct Failed;

/// Where bytes come from.
pub trait Source {
    /// The bytes that are left, where the source tells them.
    ghost left: { Self → Option (List ℕ) };

    /// How many calls have failed.
    ghost faults: { Self → ℕ };

    /// Takes the next bytes into the start of the buffer, and answers how many. A source may give
    /// fewer than fit.
    fn read(&mut self, buf: &mut [u8]) -> Result<usize, Failed>
        ensures within { IfOk result (λ n. n ≤ length buf.old) }
        ensures gives { IfOk result
            (λ n. left self.old ≡ with_front (take n buf.new) (left self.new)) }
        ensures rest { IfOk result
            (λ n. IfSome (left self.old) (λ _. drop n buf.new ≡ drop n buf.old)) }

        // No byte into a buffer that has room is the end.
        ensures end { IfOk result (λ n. n ≡ 0 → 0 < length buf.old → IsDrained (left self.new)) }
        ensures takes_none { OnErr result (left self.new ≡ left self.old) }
        ensures failed { OnErr result (FaultsRose (faults self.old) (faults self.new)) }
        ensures never_falls { faults self.old ≤ faults self.new };
}

ghost use Rattle.std.specs.Prelude.{◌≡◌, ◌<◌};
ghost use Rattle.be_machine.specs.Schedule.{next_random, chosen_place};

use std::marker::Model;

/// Numbers that are drawn one after the other, seen as the last of them.
#[derive(Drop)]
pub(crate) struct Draws {
    last: u64,
}

impl Model for Draws {
    ghost use Rattle.std.specs.Prelude.{ℕ};

    ghost Value = { ℕ };

    ghost view = { λ draws. draws.last };
}

impl Draws {
    /// The first is drawn from this number.
    pub(crate) fn new(from: u16) -> Draws
        ensures { result ≡ from }
    {
        Draws {
            last: u64::from(from),
        }
    }

    /// A number below this one.
    pub(crate) fn below(&mut self, most: u32) -> u32
        requires { 0 < most }
        ensures place { result ≡ chosen_place self.new most }
        ensures drawn { self.new ≡ next_random self.old }
        ensures below { result < most }
    {
        self.last = self
            .last
            .wrapping_mul(6364136223846793005)
            .wrapping_add(1442695040888963407);
        (self.last / 8589934592 % u64::from(most)) as u32
    }
}

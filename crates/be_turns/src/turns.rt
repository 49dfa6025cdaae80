//! The activities of parts.
ghost use Rattle.std.specs.Prelude.{◌≡◌, ℕ, ◌^◌, ◌<◌, List, Bool, Option, true, IfOk};
ghost use Rattle.be_hall.specs.Hands.{meant, places_of, up_from};
ghost use Rattle.be_hall.specs.Machine.{Fits, IsHeld, SomeFits, HeldFit};
ghost use Rattle.be_turns.specs.Turning.{Tells, Turning, is_some};

use be_geom::NoMemory;
use be_hall::{Held, Parts};

/// What an activity does next.
#[derive(Drop)]
pub enum Turn<E> {
    /// It makes this entry.
    Entry(E),
    /// It has no legal entry now.
    NotYet,
    /// The part at this place is needed to tell.
    Needs(u32),
    /// It makes no entry any more.
    Ended,
}

/// Parts that activities work on. An activity has at most one legal entry at a time, which lies in
/// the parts, and makes one after the other. The last activity is the closing one: its entry stops
/// the run.
pub trait Turns: Parts {
    ghost activities: { Self → ℕ };

    ghost owns: { Self → ℕ → ℕ → Bool };

    ghost legal: { Self → List Self.Meaning → ℕ → Option Self.Entry };

    ghost stops: { Self.Entry → Bool };

    /// How many activities there are, the closing one among them.
    fn activities(&self) -> u32
        ensures { result ≡ activities self.now };

    /// Whether a new turn of the activity wants this place.
    fn is_own(&self, activity: u32, place: u32) -> bool
        ensures { result ≡ owns self.now activity place };

    /// What the activity does next, as far as the parts in hand tell.
    fn next(&self, activity: u32, held: &Held<Self::Part>) -> Result<Turn<Self::Entry>, NoMemory>
        requires there { activity < activities self.now }
        requires own { (p : ℕ) → p < (Self.machine self.now).places
            → owns self.now activity p ≡ true → IsHeld (meant Self.meaning held.now.parts) p }
        requires fitting { SomeFits (Self.machine self.now) (meant Self.meaning held.now.parts) }
        requires fits { HeldFit (Self.machine self.now).fits (2 ^ 62)
            (meant Self.meaning held.now.parts) }
        ensures { IfOk result
            (Tells (Self.machine self.now) (legal self.now) activity
            (meant Self.meaning held.now.parts)) };

    /// Whether the activity has a legal entry, where all parts are in hand. It takes no memory, and
    /// is what a run on one thread asks before an entry.
    fn has_entry(&self, activity: u32, held: &Held<Self::Part>) -> bool
        requires there { activity < activities self.now }
        requires all { places_of held.now.parts ≡ up_from 0 (Self.machine self.now).places }
        requires fitting { SomeFits (Self.machine self.now) (meant Self.meaning held.now.parts) }
        requires fits { HeldFit (Self.machine self.now).fits (2 ^ 62)
            (meant Self.meaning held.now.parts) }
        ensures { (all : List Self.Meaning) → (Self.machine self.now).sound all
            → Fits all (meant Self.meaning held.now.parts)
            → result ≡ is_some (legal self.now all activity) };

    ghost turning: { (it : Self) → Turning (Self.machine it) (legal it) stops (activities it) };
}

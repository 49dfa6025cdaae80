//! An entry is tried with all parts in hand.
ghost use Rattle.std.specs.Prelude.{◌↔◌, IfOk, IsTrue};
ghost use Rattle.be_check.specs.Stepping.{IsTriedNoted, IsTried};
ghost use Rattle.be_machine.specs.Orderly.{EndsInStop};
ghost use Rattle.be_check.specs.Following.{Follows};

use be_geom::NoMemory;
use be_hall::{Held, Parts, Verdict};
use be_machine::{Act, Entry};
use be_noted::Noting;
use be_parts::Part;
use be_world::World;

/// Makes the entry behind so many others, where it is legal. False where it isn't.
pub(crate) fn make_if_legal(
    world: &World,
    held: &mut Held<Part>,
    entry: &Entry,
    made: u64,
) -> Result<bool, NoMemory>
    requires { Follows world.now held.old.parts made }
    ensures { IfOk result (IsTried world.now entry.now made held.old.parts held.new.parts) }
{
    match world.prepare(held, entry)? {
        Verdict::Ready(ready) => {
            world.perform(held, ready, made + 1);
            Ok(true)
        }
        Verdict::NotLegal => Ok(false),
        Verdict::Needs(_) => unreachable!(),
    }
}

/// As `make_if_legal`, and what its maker notes of the entry is kept.
pub(crate) fn note_if_legal(
    noting: &Noting,
    held: &mut Held<Part>,
    entry: &Entry,
    made: u64,
) -> Result<bool, NoMemory>
    requires { Follows noting.now held.old.parts made }
    ensures { IfOk result (IsTriedNoted noting.now entry.now made held.old.parts held.new.parts) }
{
    match noting.prepare(held, entry)? {
        Verdict::Ready(ready) => {
            noting.perform(held, ready, made + 1);
            Ok(true)
        }
        Verdict::NotLegal => Ok(false),
        Verdict::Needs(_) => unreachable!(),
    }
}

/// Whether the last entry is Stop.
pub(crate) fn ends_in_stop(history: &[Entry]) -> bool
    ensures { IsTrue result ↔ EndsInStop history.now }
{
    let [.., last] = history else {
        return false;
    };
    match last.act {
        Act::Stop => true,
        _ => false,
    }
}

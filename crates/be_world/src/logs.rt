//! The log of a part in hand.
ghost use Rattle.std.specs.Prelude.{◌≡◌, IfOk};
ghost use Rattle.be_parts.specs.Kept.{note_in};
ghost use Rattle.be_world.specs.Entering.{HasEntered, HasOtherRoom, KeepsEntries, TakesEntry};

use be_geom::NoMemory;
use be_hall::Held;
use be_machine::Entry;
use be_parts::Part;

/// Asks for room for one entry more at this place. The log grows by doubling.
pub(crate) fn make_room_at(held: &mut Held<Part>, place: u32) -> Result<(), NoMemory>
    requires { KeepsEntries held.old.parts place }
    ensures room { held.new.room ≡ held.old.room }
    ensures same { HasOtherRoom place held.old.parts held.new.parts }
    ensures made { IfOk result (λ _. TakesEntry held.new.parts place) }
{
    held.get_mut(place).unwrap().make_room()
}

/// The part at this place keeps the entry, with what its maker noted of it.
pub(crate) fn enter_at(
    held: &mut Held<Part>,
    place: u32,
    number: u64,
    entry: Entry,
    note: Option<Vec<u8>>,
)
    requires { TakesEntry held.old.parts place }
    ensures room { held.new.room ≡ held.old.room }
    ensures entered { HasEntered place number entry (note_in note) held.old.parts
        held.new.parts }
{
    held.get_mut(place).unwrap().enter(number, entry, note);
}

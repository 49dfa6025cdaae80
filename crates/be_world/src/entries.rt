//! An entry of what an activity may do.
ghost use Rattle.std.specs.Prelude.{◌≡◌, IfOk};
ghost use Rattle.be_asking.specs.Deeds.{act_in};
ghost use Rattle.be_world.specs.Turns.{entry_by};

use be_asking::Deed;
use be_geom::NoMemory;
use be_machine::{Act, Entry};
use be_message::Text;
use std::alloc::Global;

/// The entry of the activity of this number. A note's word is copied.
pub(crate) fn entry_of(alloc: Global, number: u32, deed: Deed) -> Result<Entry, NoMemory>
    ensures { IfOk result (λ entry. entry ≡ entry_by number (act_in deed.entry)) }
{
    let act = match deed {
        Deed::Notes(text) => Act::Note(Text::new(alloc, text.as_slice())?),
        Deed::Makes(act) => act,
    };
    Ok(Entry { actor: number, act })
}

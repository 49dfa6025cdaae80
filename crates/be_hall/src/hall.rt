//! The hall: a lock word and a slot for each place, a clock, and a stop word.
ghost use Rattle.std.specs.Prelude.{◌≡◌, ◌+◌, ◌*◌};

use crate::parts::Parts;
use crate::rulebook::Rulebook;
use crate::view::{Key, Law, View};
use atomic_table::Table;
use std::alloc::Global;

/// Parts that threads share, each at home in its slot or in the hands of one pass.
#[derive(Drop)]
pub struct Hall<P: Parts + Drop> {
    pub(crate) table: Table<
        Option<P::Part>,
        View<P, P::Meaning, P::Entry>,
        Key<P, P::Part>,
        Law<P>,
        Global,
    >,
    pub(crate) book: Rulebook<P>,
    pub(crate) alloc: Global,
    ghost same_rules: { table.shared.key.rules.value ≡ book.rules },
    ghost sized: { (table.shared.table_id.slots ≡ book.places)
        × (table.shared.table_id.words ≡ 8 * book.places + 16) },
}

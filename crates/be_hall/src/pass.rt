//! What a thread has of a hall.
ghost use Rattle.std.specs.Prelude.{◌≡◌, ◌<◌, ◌≤◌, length, min, true};
ghost use Rattle.be_hall.specs.Hands.{places_of, all_below, rises_from};
ghost use Rattle.be_hall.specs.Views.{gathered};
ghost use Rattle.be_hall.specs.Passes.{marks_of, emptied};

use crate::held::Held;
use crate::parts::Parts;
use crate::view::View;
use atomic_table::Seat;

pub(crate) type Place<P> = Seat<
    Option<<P as Parts>::Part>,
    View<P, <P as Parts>::Meaning, <P as Parts>::Entry>,
>;

/// What a thread has of a hall: what it knows, and the parts in its hands.
#[derive(Drop)]
pub struct Pass<P: Parts> {
    pub(crate) seat: Place<P>,
    pub(crate) held: Held<P::Part>,
    // How many commits it and those that were joined into it made, up to the last u64.
    pub(crate) made: u64,
    ghost tied: { seat.me.0.marks ≡ marks_of P.meaning P.log held.parts },
    ghost out: { seat.me.1 ≡ emptied (places_of held.parts) },
    ghost rising: { rises_from 0 (places_of held.parts) ≡ true },
    ghost within: { all_below seat.table_id.slots (places_of held.parts) ≡ true },
    ghost room: { seat.table_id.slots ≤ held.room },
    ghost real: { 0 < length seat.me.0.branches },
    ghost counts: { made ≡ min (gathered seat.me.0) 18446744073709551615 },
}

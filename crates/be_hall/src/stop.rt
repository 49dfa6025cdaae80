//! The stop word.
ghost use Rattle.std.specs.Prelude.{◌≡◌, true, false};
ghost use Rattle.be_hall.specs.Views.{raising, hearing, unheard};
ghost use Rattle.be_hall.specs.Words.{IsPassOf, hands_of, view_of};

use crate::hall::Hall;
use crate::parts::Parts;
use crate::pass::{Pass, Place};
use crate::view::{Asks, Raises};
use crate::words::STOP;

impl<P: Parts + Drop> Hall<P> {
    /// Tells all passes to stop.
    pub fn raise_stop(&self, pass: &mut Pass<P>)
        requires { IsPassOf P.meaning self.now pass.old }
        ensures hall { IsPassOf P.meaning self.now pass.new }
        ensures raised { view_of pass.new ≡ raising (view_of pass.old) }
        ensures held { hands_of pass.new ≡ hands_of pass.old }
    {
        self.raise(&mut pass.seat);
    }

    fn raise(&self, seat: &mut Place<P>)
        requires { seat.old.table_id ≡ self.now.table.shared.table_id }
        ensures same { (seat.new.table_id ≡ seat.old.table_id) × (seat.new.id ≡ seat.old.id)
            × (seat.new.me.1 ≡ seat.old.me.1) }
        ensures raised { seat.new.me.0 ≡ raising seat.old.me.0 }
    {
        self.table.shared.store::<Raises>(seat, STOP, 1);
    }

    /// Whether a pass has raised stop.
    pub fn stopped(&self, pass: &mut Pass<P>) -> bool
        requires { IsPassOf P.meaning self.now pass.old }
        ensures hall { IsPassOf P.meaning self.now pass.new }
        ensures stopped { result ≡ true → view_of pass.new ≡ hearing (view_of pass.old) }
        ensures quiet { result ≡ false
            → ((view_of pass.old).knows ≡ false) × ((view_of pass.old).raised ≡ false)
            × (view_of pass.new ≡ unheard (view_of pass.old)) }
        ensures held { hands_of pass.new ≡ hands_of pass.old }
    {
        self.ask(&mut pass.seat)
    }

    fn ask(&self, seat: &mut Place<P>) -> bool
        requires { seat.old.table_id ≡ self.now.table.shared.table_id }
        ensures same { (seat.new.table_id ≡ seat.old.table_id) × (seat.new.id ≡ seat.old.id)
            × (seat.new.me.1 ≡ seat.old.me.1) }
        ensures stopped { result ≡ true → seat.new.me.0 ≡ hearing seat.old.me.0 }
        ensures quiet { result ≡ false
            → (seat.old.me.0.knows ≡ false) × (seat.old.me.0.raised ≡ false)
            × (seat.new.me.0 ≡ unheard seat.old.me.0) }
    {
        self.table.shared.load::<Asks>(seat, STOP) == 1
    }
}

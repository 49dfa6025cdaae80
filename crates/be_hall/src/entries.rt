//! How a pass makes an entry.
ghost use Rattle.std.specs.Prelude.{◌≡◌, [], ◌∷◌, IfOk};
ghost use Rattle.atomic_table.specs.Table.{step};
ghost use mathlib.Core.Option.{none};
ghost use Rattle.be_hall.specs.Answers.{Answers, HasSpare};
ghost use Rattle.be_hall.specs.Hands.{meant};
ghost use Rattle.be_hall.specs.Machine.{IsReady};
ghost use Rattle.be_hall.specs.Views.{known};
ghost use Rattle.be_hall.specs.Steps.{commits};
ghost use Rattle.be_hall.specs.Passes.{Makes, about_of};
ghost use Rattle.be_hall.specs.Words.{IsPassOf, rules_of, view_of, in_hand, opened};

use crate::hall::Hall;
use crate::parts::{Parts, Verdict};
use crate::pass::{Pass, Place};
use crate::view::{Aim, Commits};
use crate::words::CLOCK;
use be_geom::NoMemory;
use std::marker::Brand;

impl<P: Parts + Drop> Hall<P> {
    /// Asks the rules what becomes of an entry with the parts in hand.
    pub fn prepare(
        &self,
        pass: &mut Pass<P>,
        entry: &P::Entry,
    ) -> Result<Verdict<P::Ready>, NoMemory>
        requires { IsPassOf P.meaning self.now pass.old }
        ensures hall { IsPassOf P.meaning self.now pass.new }
        ensures same { view_of pass.new ≡ view_of pass.old }
        ensures held { meant P.meaning (in_hand pass.new) ≡ meant P.meaning (in_hand pass.old) }
        ensures logs { meant P.log (in_hand pass.new) ≡ meant P.log (in_hand pass.old) }
        ensures answer { IfOk result
            (Answers (P.machine (rules_of self.now)) (meant P.meaning (in_hand pass.new))
            (meant P.spare (in_hand pass.new)) P.entry_of P.seen_by
            (P.prepared (rules_of self.now) (in_hand pass.new)) entry.now) }
    {
        self.glance(&mut pass.seat);
        self.book.rules.prepare(&mut pass.held, entry)
    }

    fn tick<J: Aim<P::Entry>>(&self, seat: &mut Place<P>, ready: &P::Ready) -> u64
        requires same { seat.old.table_id ≡ self.now.table.shared.table_id }
        requires aim { J.entries ≡ P.entry_of ready.now ∷ [] }
        requires about { seat.old.me.0.about ≡ about_of P.meaning self.now.table.shared.key ∷ [] }
        requires permitted { IsReady (P.machine self.now.table.shared.key.rules.value)
            (known seat.old.me.0.marks) (P.entry_of ready.now) }
        ensures seat { (seat.new.table_id ≡ seat.old.table_id) × (seat.new.id ≡ seat.old.id) }
        ensures told { commits P.machine (P.entry_of ready.now ∷ [])
            (step self.now.table.shared.table_id.slots 0 1 0 none) seat.old.me result seat.new.me }
    {
        self.table.shared.fetch_add::<Commits<P, J>>(seat, CLOCK, 1)
    }

    /// Makes one entry with the parts in hand, and answers its number, counted from 1.
    pub fn commit(&self, pass: &mut Pass<P>, ready: P::Ready) -> u64
        requires hall { IsPassOf P.meaning self.now pass.old }
        requires seen { P.seen_by ready ≡ meant P.meaning (in_hand pass.old) }
        requires prepared { P.prepared (rules_of self.now) (in_hand pass.old) ready }
        requires permitted { IsReady (P.machine (rules_of self.now)) (P.seen_by ready)
            (P.entry_of ready) }
        requires spare { HasSpare ((P.machine (rules_of self.now)).keeper (P.entry_of ready))
            (meant P.spare (in_hand pass.old)) }
        ensures hall { IsPassOf P.meaning self.now pass.new }
        ensures made { Makes P.machine P.meaning (opened P.meaning self.now) (view_of pass.old)
            (in_hand pass.old) result (P.entry_of ready) (view_of pass.new) (in_hand pass.new) }
    {
        let number = self.tick::<Brand>(&mut pass.seat, &ready) + 1;
        self.book.rules.perform(&mut pass.held, ready, number);
        pass.made = pass.made.saturating_add(1);
        number
    }
}

//! How passes part and meet, and how they look.
ghost use Rattle.std.specs.Prelude.{◌≡◌, ℕ, [], ◌∷◌, IfErr, IfOk};
ghost use Rattle.be_hall.specs.declared.view.About.{About};
ghost use Rattle.be_hall.specs.Views.{parted, parting, joined};
ghost use Rattle.be_hall.specs.Steps.{Sees};
ghost use Rattle.be_hall.specs.Words.{IsPassOf, IsSame, hands_of, rules_of, view_of, in_hand};

use crate::hall::Hall;
use crate::held::Held;
use crate::parts::Parts;
use crate::pass::{Pass, Place};
use crate::view::{Glances, Joining, Looks, Parting};
use crate::words::{CLOCK, STOP};
use be_geom::NoMemory;

impl<P: Parts> Pass<P> {
    /// The parts in hand.
    pub fn held(&self) -> &Held<P::Part>
        ensures { result.now ≡ hands_of self.now }
    {
        &self.held
    }
}

impl<P: Parts + Drop> Hall<P> {
    /// The rules with which the hall was opened.
    pub fn rules(&self) -> &P
        ensures { result.now ≡ rules_of self.now }
    {
        &self.book.rules
    }

    /// A pass that has seen as much. The first one has the same in hand, and knows that one more
    /// came of it.
    pub fn split(&self, pass: &mut Pass<P>) -> Result<Pass<P>, NoMemory>
        requires { IsPassOf P.meaning self.now pass.old }
        ensures same { IfErr result (λ _. IsSame pass.old pass.new) }
        ensures hall { IsPassOf P.meaning self.now pass.new }
        ensures old { IfOk result (λ _. view_of pass.new ≡ parting (view_of pass.old)) }
        ensures held { hands_of pass.new ≡ hands_of pass.old }
        ensures new { IfOk result
            (λ r. (view_of r ≡ parted (view_of pass.old)) × (in_hand r ≡ [])) }
        ensures new_hall { IfOk result (λ r. IsPassOf P.meaning self.now r) }
    {
        let held = Held::with_room(self.alloc, self.book.places as usize)?;
        let seat = self.part(&mut pass.seat);
        Ok(Pass {
            seat,
            held,
            made: 0,
        })
    }

    fn part(&self, seat: &mut Place<P>) -> Place<P>
        requires { seat.old.table_id ≡ self.now.table.shared.table_id }
        ensures same { (seat.new.table_id ≡ seat.old.table_id) × (seat.new.me.1 ≡ seat.old.me.1) }
        ensures old { seat.new.me.0 ≡ parting seat.old.me.0 }
        ensures new { (result.table_id ≡ seat.old.table_id)
            × (result.me ≡ (parted seat.old.me.0, [])) }
    {
        self.table.shared.split_seat::<Parting>(seat)
    }

    /// Puts what another pass knows and made into this one.
    pub fn join(&self, pass: &mut Pass<P>, other: Pass<P>)
        requires hall { IsPassOf P.meaning self.now pass.old }
        requires other { IsPassOf P.meaning self.now other }
        requires empty { in_hand other ≡ [] }
        ensures hall { IsPassOf P.meaning self.now pass.new }
        ensures both { view_of pass.new ≡ joined (view_of pass.old) (view_of other) }
        ensures held { hands_of pass.new ≡ hands_of pass.old }
    {
        let Pass { seat, made, .. } = other;
        self.unite(&mut pass.seat, seat);
        pass.made = pass.made.saturating_add(made);
    }

    fn unite(&self, seat: &mut Place<P>, other: Place<P>)
        requires same { (seat.old.table_id ≡ self.now.table.shared.table_id)
            × (other.table_id ≡ self.now.table.shared.table_id) }
        requires empty { (other.me.1 ≡ []) × (other.me.0.marks ≡ []) }
        ensures same { seat.new.table_id ≡ seat.old.table_id }
        ensures both { seat.new.me ≡ (joined seat.old.me.0 other.me.0, seat.old.me.1) }
    {
        self.table.shared.join_seat::<Joining>(seat, other);
    }

    // How many entries there are, and the history so far, which the clauses see.
    pub(crate) fn look(&self, seat: &mut Place<P>) -> u64
        requires { seat.old.table_id ≡ self.now.table.shared.table_id }
        ensures same { (seat.new.table_id ≡ seat.old.table_id) × (seat.new.id ≡ seat.old.id)
            × (seat.new.me ≡ seat.old.me) }
        ensures sees { (a : About P P.Meaning) → seat.old.me.0.about ≡ a ∷ []
            → Sees P.machine self.now.book.places a result seat.old.me.0 }
    {
        self.table.shared.load::<Looks<P>>(seat, CLOCK)
    }

    // The history so far, which the clauses see. The stop word is one that no commit changes, so
    // this costs no thread anything while others commit.
    pub(crate) fn glance(&self, seat: &mut Place<P>)
        requires { seat.old.table_id ≡ self.now.table.shared.table_id }
        ensures same { (seat.new.table_id ≡ seat.old.table_id) × (seat.new.id ≡ seat.old.id)
            × (seat.new.me ≡ seat.old.me) }
        ensures sees { (a : About P P.Meaning) → seat.old.me.0.about ≡ a ∷ []
            → (n : ℕ) × Sees P.machine self.now.book.places a n seat.old.me.0 }
    {
        self.table.shared.load::<Glances<P>>(seat, STOP);
    }
}

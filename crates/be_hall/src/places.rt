//! How parts are taken and given back.
ghost use Rattle.std.specs.Prelude.{◌≡◌, ◌≢◌, ℕ, ◌+◌, ◌<◌, ◌++◌, List, [], ◌∷◌, length, true};
ghost use Rattle.std.specs.Prelude.{false, None, Some, All, IfOk, IfErr, IfSome, Contains};
ghost use Rattle.atomic_table.specs.Table.{rest};
ghost use Rattle.be_hall.specs.declared.view.Mark.{Mark};
ghost use Rattle.be_hall.specs.Hands.{places_of, rises_from, meant};
ghost use Rattle.be_hall.specs.Machine.{IsAskable};
ghost use Rattle.be_hall.specs.Misses.{IsAlone};
ghost use Rattle.be_hall.specs.Views.{Has, HasPlace, mark, marking, missing, letting_go};
ghost use Rattle.be_hall.specs.Passes.{IsAlike, Gives};
ghost use Rattle.be_hall.specs.Words.{IsPassOf, IsSame, hands_of, in_hand, opened, rules_of};
ghost use Rattle.be_hall.specs.Words.{view_of};

use crate::hall::Hall;
use crate::parts::Parts;
use crate::pass::{Pass, Place};
use crate::view::{Marks, Unmarks};
use crate::words::lock_of;
use std::sync::Wait;
use thiserror::Error;

/// Another pass had this place at a step of the call.
#[derive(Clone, Copy, Debug, PartialEq, Eq, Error)]
#[error("another pass has place {place}")]
pub struct Busy {
    pub place: u32,
}

// How a pass asks for a place.
#[derive(Clone, Copy)]
enum Knock {
    Once,
    // It sleeps where another pass has the place, so the one that gives it back has to wake it.
    ToSleep,
}

impl<P: Parts + Drop> Hall<P> {
    // Tries to mark a place. Where it does, the part is in the seat's slot.
    fn mark(&self, seat: &mut Place<P>, place: u32, knock: Knock) -> bool
        requires same { (seat.old.table_id ≡ self.now.table.shared.table_id)
            × (place < self.now.book.places) }
        requires real { 0 < length seat.old.me.0.branches }
        requires apart { ¬ HasPlace seat.old.me.0.marks place }
        ensures seat { (seat.new.table_id ≡ seat.old.table_id) × (seat.new.id ≡ seat.old.id) }
        ensures marked { result ≡ true
            → (x : P.Part) × (seat.new.me.1 ≡ (place, Some x) ∷ seat.old.me.1)
            × (seat.new.me.0 ≡ marking seat.old.me.0 (mark place (P.meaning x) (P.log x))) }
        ensures missed { result ≡ false
            → (seat.new.me.1 ≡ seat.old.me.1) × (seat.new.me.0 ≡ missing seat.old.me.0 place) }
        ensures others { result ≡ false → ¬ IsAlone seat.old.me.0 }
    {
        let shared = &self.table.shared;
        let word = lock_of(place);
        let found = match knock {
            Knock::Once => shared.compare_exchange::<Marks<P>>(seat, word, 0, 1),
            Knock::ToSleep => shared.swap::<Marks<P>>(seat, word, 2),
        };
        found == 0
    }

    // Takes the part at a place, where no other pass has it.
    fn try_one(&self, pass: &mut Pass<P>, place: u32, knock: Knock) -> bool
        requires hall { IsPassOf P.meaning self.now pass.old }
        requires place { place < (P.machine (rules_of self.now)).places }
        requires above { rises_from 0 (places_of (in_hand pass.old) ++ place ∷ []) ≡ true }
        ensures hall { IsPassOf P.meaning self.now pass.new }
        ensures known { IsAlike (view_of pass.old) (view_of pass.new) }
        ensures taken { result ≡ true
            → (places_of (in_hand pass.new) ≡ places_of (in_hand pass.old) ++ place ∷ [])
            × ((view_of pass.new).missed ≡ (view_of pass.old).missed) }
        ensures missed { result ≡ false
            → (hands_of pass.new ≡ hands_of pass.old)
            × ((view_of pass.new).missed ≡ (view_of pass.old).missed ++ place ∷ []) }
        ensures others { result ≡ false → ¬ IsAlone (view_of pass.old) }
    {
        if !self.mark(&mut pass.seat, place, knock) {
            return false;
        }
        let part = self
            .table
            .shared
            .exchange(&mut pass.seat, place as usize, None)
            .unwrap();
        pass.held.push(place, part);
        true
    }

    // Takes the part at a place, and waits until it can.
    fn take_one<R: Wait>(&self, rt: &R, pass: &mut Pass<P>, place: u32)
        requires hall { IsPassOf P.meaning self.now pass.old }
        requires place { place < (P.machine (rules_of self.now)).places }
        requires above { rises_from 0 (places_of (in_hand pass.old) ++ place ∷ []) ≡ true }
        ensures hall { IsPassOf P.meaning self.now pass.new }
        ensures known { IsAlike (view_of pass.old) (view_of pass.new) }
        ensures taken { places_of (in_hand pass.new) ≡ places_of (in_hand pass.old) ++ place ∷ [] }
    {
        if self.try_one(pass, place, Knock::Once) {
            return;
        }
        for _ in rt.forever() {
            if self.try_one(pass, place, Knock::ToSleep) {
                return;
            }
            self.table.shared.park(rt, lock_of(place), 2);
        }
        unreachable!()
    }

    /// Takes the parts at these places, and waits until it can.
    pub fn take<R: Wait>(&self, rt: &R, pass: &mut Pass<P>, places: &[u32])
        requires hall { IsPassOf P.meaning self.now pass.old }
        requires empty { in_hand pass.old ≡ [] }
        requires rising { rises_from 0 places.now ≡ true }
        requires there { All (λ p. p < (P.machine (rules_of self.now)).places) places.now }
        ensures hall { IsPassOf P.meaning self.now pass.new }
        ensures known { IsAlike (view_of pass.old) (view_of pass.new) }
        ensures held { places_of (in_hand pass.new) ≡ places.now }
        ensures gives { Gives P.machine P.meaning (opened P.meaning self.now) (view_of pass.new)
            (in_hand pass.new) }
        ensures askable { IsAskable (P.machine (rules_of self.now))
            (meant P.meaning (in_hand pass.new)) }
    {
        for i in 0..places.len() {
            self.take_one(rt, pass, places[i]);
        }
        self.see(pass);
    }

    /// Takes the parts at these places, or none of them where another pass has one. A pass that is
    /// alone, as the first one is until it is split and again once all are joined into it, is never
    /// told so.
    pub fn try_take(&self, pass: &mut Pass<P>, places: &[u32]) -> Result<(), Busy>
        requires hall { IsPassOf P.meaning self.now pass.old }
        requires empty { in_hand pass.old ≡ [] }
        requires rising { rises_from 0 places.now ≡ true }
        requires there { All (λ p. p < (P.machine (rules_of self.now)).places) places.now }
        ensures hall { IsPassOf P.meaning self.now pass.new }
        ensures known { IsAlike (view_of pass.old) (view_of pass.new) }
        ensures held { IfOk result
            (λ _. (places_of (in_hand pass.new) ≡ places.now)
            × ((view_of pass.new).missed ≡ (view_of pass.old).missed)) }
        ensures gives { IfOk result
            (λ _. Gives P.machine P.meaning (opened P.meaning self.now) (view_of pass.new)
            (in_hand pass.new)) }
        ensures askable { IfOk result
            (λ _. IsAskable (P.machine (rules_of self.now)) (meant P.meaning (in_hand pass.new))) }
        ensures busy { IfErr result
            (λ b. (in_hand pass.new ≡ [])
            × ((view_of pass.new).missed ≡ (view_of pass.old).missed ++ b.place ∷ [])
            × Contains places.now b.place) }
        ensures others { IfErr result (λ _. ¬ IsAlone (view_of pass.old)) }
    {
        for i in 0..places.len() {
            if !self.try_one(pass, places[i], Knock::Once) {
                self.give(pass);
                return Err(Busy { place: places[i] });
            }
        }
        self.see(pass);
        Ok(())
    }

    /// Takes the part at this place too, which lies above those in hand, where no other pass has
    /// it. Whether it did.
    pub fn try_more(&self, pass: &mut Pass<P>, place: u32) -> bool
        requires hall { IsPassOf P.meaning self.now pass.old }
        requires there { place < (P.machine (rules_of self.now)).places }
        requires above { rises_from 0 (places_of (in_hand pass.old) ++ place ∷ []) ≡ true }
        ensures hall { IsPassOf P.meaning self.now pass.new }
        ensures known { IsAlike (view_of pass.old) (view_of pass.new) }
        ensures taken { result ≡ true
            → places_of (in_hand pass.new) ≡ places_of (in_hand pass.old) ++ place ∷ [] }
        ensures busy { result ≡ false → (hands_of pass.new ≡ hands_of pass.old)
            × ((view_of pass.new).missed ≡ (view_of pass.old).missed ++ place ∷ []) }
        ensures others { result ≡ false → ¬ IsAlone (view_of pass.old) }
        ensures gives { Gives P.machine P.meaning (opened P.meaning self.now)
            (view_of pass.new) (in_hand pass.new) }
        ensures askable { IsAskable (P.machine (rules_of self.now))
            (meant P.meaning (in_hand pass.new)) }
    {
        let is_taken = self.try_one(pass, place, Knock::Once);
        self.see(pass);
        is_taken
    }

    // Learns anew that one history gives the parts in hand.
    fn see(&self, pass: &mut Pass<P>)
        requires { IsPassOf P.meaning self.now pass.old }
        ensures hall { IsPassOf P.meaning self.now pass.new }
        ensures same { IsSame pass.old pass.new }
        ensures gives { Gives P.machine P.meaning (opened P.meaning self.now) (view_of pass.new)
            (in_hand pass.new) }
        ensures askable { IsAskable (P.machine (rules_of self.now))
            (meant P.meaning (in_hand pass.new)) }
    {
        self.glance(&mut pass.seat);
    }

    /// Gives all parts in hand back.
    pub fn give(&self, pass: &mut Pass<P>)
        requires { IsPassOf P.meaning self.now pass.old }
        ensures hall { IsPassOf P.meaning self.now pass.new }
        ensures known { IsAlike (view_of pass.old) (view_of pass.new) }
        ensures missed { (view_of pass.new).missed ≡ (view_of pass.old).missed }
        ensures none { in_hand pass.new ≡ [] }
    {
        while !pass.held.is_empty() {
            self.give_last(pass);
        }
    }

    // Gives back the part that was taken last.
    fn give_last(&self, pass: &mut Pass<P>)
        requires hall { IsPassOf P.meaning self.now pass.old }
        requires some { in_hand pass.old ≢ [] }
        ensures hall { IsPassOf P.meaning self.now pass.new }
        ensures known { IsAlike (view_of pass.old) (view_of pass.new) }
        ensures missed { (view_of pass.new).missed ≡ (view_of pass.old).missed }
        ensures fewer { length (in_hand pass.new) + 1 ≡ length (in_hand pass.old) }
    {
        let (place, part) = pass.held.pop().unwrap();
        self.let_go(&mut pass.seat, place, part);
    }

    // Gives back the place that was marked last: its part goes into the slot before its lock word
    // is 0.
    fn let_go(&self, seat: &mut Place<P>, place: u32, part: P::Part)
        requires same { (seat.old.table_id ≡ self.now.table.shared.table_id)
            × (place < self.now.book.places) }
        requires out { seat.old.me.1 ≡ (place, None) ∷ rest seat.old.me.1 }
        requires marked { (init : List (Mark P.Meaning P.Entry))
            × (seat.old.me.0.marks ≡ init ++ mark place (P.meaning part) (P.log part) ∷ [])
            × ((z : Mark P.Meaning P.Entry) → Has init z → z.place ≢ place) }
        ensures seat { (seat.new.table_id ≡ seat.old.table_id) × (seat.new.id ≡ seat.old.id) }
        ensures let_go { (seat.new.me.0 ≡ letting_go seat.old.me.0)
            × (seat.new.me.1 ≡ rest seat.old.me.1) }
    {
        let shared = &self.table.shared;
        drop(shared.exchange(seat, place as usize, Some(part)));
        let word = lock_of(place);
        if shared.swap::<Unmarks<P>>(seat, word, 0) == 2 {
            shared.wake_one(word);
        }
    }
}

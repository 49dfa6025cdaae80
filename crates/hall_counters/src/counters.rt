//! Counters that pass units to each other, as parts of a hall.
ghost use Rattle.std.specs.Prelude.{⊤, ◌≡◌, ℕ, ◌+◌, ◌-◌, ◌^◌, ◌<◌, ◌≤◌, ◌++◌, List, [], ◌∷◌, Some};
ghost use Rattle.std.specs.Prelude.{IfOk, IfSome, IfNone, OnOk, option_map};
ghost use Rattle.std.specs.VecDeque.{deque_len, deque_capacity};
ghost use Rattle.be_hall.specs.Hands.{part_at, with_part, meant};
ghost use Rattle.hall_counters.specs.Counting.{counting, gave, got};

use crate::transfer::{Count, Transfer};
use be_geom::NoMemory;
use be_hall::{Held, Parts, Verdict};
use std::alloc::Global;
use std::collections::VecDeque;
use std::snapshot::Snapshot;

/// A counter, and the transfers that it made, each with its number.
#[derive(Drop)]
pub struct Counter {
    count: Count,
    log: VecDeque<(u64, Transfer)>,
    // What its work comes to, of which nothing is said.
    stirred: u64,
}

/// A transfer that may be made, and the counters in hand from which that was seen.
#[derive(Drop)]
pub struct Move {
    transfer: Transfer,
    seen: Snapshot<Held<Counter>>,
}

/// So many counters. A transfer takes so many rounds of work.
#[derive(Clone, Copy, Debug, PartialEq, Eq)]
pub struct Counters {
    pub places: u32,
    pub rounds: u32,
}

impl Parts for Counters {
    ghost use Rattle.hall_counters.specs.Laws.{counting_lawful};

    type Part = Counter;

    type Entry = Transfer;

    type Ready = Move;

    type Meaning = Count;

    ghost machine = { λ it. counting it.places };

    ghost meaning = { λ x. x.count };

    ghost log = { λ x. x.log.items };

    ghost spare = { λ x. deque_capacity x.log - deque_len x.log };

    ghost entry_of = { λ r. r.transfer };

    ghost seen_by = { λ r. meant (λ x. x.count) r.seen.value.parts };

    ghost prepared = { λ it held r. ⊤ };

    ghost lawful = { λ it. counting_lawful it.places };

    fn places(&self) -> u32 {
        self.places
    }

    fn prepare(
        &self,
        held: &mut Held<Counter>,
        entry: &Transfer,
    ) -> Result<Verdict<Move>, NoMemory> {
        let Transfer { source, target } = *entry;
        if source == target || source >= self.places || target >= self.places {
            return Ok(Verdict::NotLegal);
        }
        let Some(count) = count_at(held, source) else {
            return Ok(Verdict::Needs(source));
        };
        let Some(_) = count_at(held, target) else {
            return Ok(Verdict::Needs(target));
        };
        if count.units == 0 || count.left == 0 {
            return Ok(Verdict::NotLegal);
        }
        make_room(held, source)?;
        let seen = Snapshot::of(held);
        Ok(Verdict::Ready(Move {
            transfer: *entry,
            seen,
        }))
    }

    fn perform(&self, held: &mut Held<Counter>, ready: Move, number: u64) {
        let transfer = ready.transfer;
        held.ascends();
        give_one(held, transfer, number, self.rounds);
        get_one(held, transfer.target);
    }

    fn unlog(&self, part: &mut Counter) -> Option<(u64, Transfer)> {
        part.log.pop_front()
    }
}

impl Counter {
    /// A counter whose activity has made no step.
    pub fn new(alloc: Global, units: u64, left: u64) -> Counter
        ensures count { result.count ≡ record { units = units; left = left } }
        ensures log { result.log.items ≡ [] }
    {
        Counter {
            count: Count { units, left },
            log: VecDeque::new(alloc),
            stirred: units,
        }
    }

    /// Its units, and how many steps are left.
    pub fn count(&self) -> Count
        ensures { result ≡ self.now.count }
    {
        self.count
    }

    fn give(&mut self, transfer: Transfer, number: u64, rounds: u32)
        requires unit { (0 < self.old.count.units) × (0 < self.old.count.left) }
        requires room { deque_len self.old.log < deque_capacity self.old.log }
        ensures count { self.new.count ≡ gave self.old.count }
        ensures log { self.new.log.items ≡ self.old.log.items ++ (number, transfer) ∷ [] }
    {
        let Count { units, left } = self.count;
        self.count = Count {
            units: units - 1,
            left: left - 1,
        };
        self.log.push_back_reserved((number, transfer));
        self.stirred = stir(self.stirred, rounds);
    }

    fn get(&mut self)
        requires { self.old.count.units + 1 < 2 ^ 64 }
        ensures count { self.new.count ≡ got self.old.count }
        ensures log { self.new.log.items ≡ self.old.log.items }
    {
        let Count { units, left } = self.count;
        self.count = Count {
            units: units + 1,
            left,
        };
    }

    fn reserve(&mut self) -> Result<(), NoMemory>
        ensures count { self.new.count ≡ self.old.count }
        ensures log { self.new.log.items ≡ self.old.log.items }
        ensures room { OnOk result (deque_len self.new.log < deque_capacity self.new.log) }
    {
        match self.log.reserve(1) {
            Ok(()) => Ok(()),
            Err(_) => Err(NoMemory),
        }
    }
}

// So many rounds of work.
fn stir(seed: u64, rounds: u32) -> u64 {
    let mut stirred = seed;
    for round in 0..rounds {
        stirred = (stirred ^ u64::from(round))
            .wrapping_mul(6364136223846793005)
            .rotate_left(17);
    }
    stirred
}

fn count_at(held: &Held<Counter>, place: u32) -> Option<Count>
    ensures { result ≡ option_map (λ x. x.count) (part_at held.now.parts place) }
{
    match held.get(place) {
        Some(counter) => Some(counter.count),
        None => None,
    }
}

fn make_room(held: &mut Held<Counter>, place: u32) -> Result<(), NoMemory>
    requires { (x : Counter) × (part_at held.old.parts place ≡ Some x) }
    ensures room { held.new.room ≡ held.old.room }
    ensures same { (x : Counter) × (y : Counter) × (part_at held.old.parts place ≡ Some x)
        × (held.new.parts ≡ with_part held.old.parts place y) × (y.count ≡ x.count)
        × (y.log.items ≡ x.log.items) × OnOk result (deque_len y.log < deque_capacity y.log) }
{
    held.get_mut(place).unwrap().reserve()
}

fn give_one(held: &mut Held<Counter>, transfer: Transfer, number: u64, rounds: u32)
    requires { (x : Counter) × (part_at held.old.parts transfer.source ≡ Some x)
        × (0 < x.count.units) × (0 < x.count.left) × (deque_len x.log < deque_capacity x.log) }
    ensures room { held.new.room ≡ held.old.room }
    ensures given { (x : Counter) × (y : Counter)
        × (part_at held.old.parts transfer.source ≡ Some x)
        × (held.new.parts ≡ with_part held.old.parts transfer.source y) × (y.count ≡ gave x.count)
        × (y.log.items ≡ x.log.items ++ (number, transfer) ∷ []) }
{
    held.get_mut(transfer.source)
        .unwrap()
        .give(transfer, number, rounds);
}

fn get_one(held: &mut Held<Counter>, place: u32)
    requires { (x : Counter) × (part_at held.old.parts place ≡ Some x)
        × (x.count.units + 1 < 2 ^ 64) }
    ensures room { held.new.room ≡ held.old.room }
    ensures got { (x : Counter) × (y : Counter) × (part_at held.old.parts place ≡ Some x)
        × (held.new.parts ≡ with_part held.old.parts place y) × (y.count ≡ got x.count)
        × (y.log.items ≡ x.log.items) }
{
    held.get_mut(place).unwrap().get();
}

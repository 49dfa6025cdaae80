//! The places that a turn wants.
ghost use Rattle.std.specs.Prelude.{◌≡◌, ◌<◌, ◌≤◌, [], ◌∷◌, ◌++◌, Contains, IfOk, length};
ghost use Rattle.std.specs.Prelude.{Some, vec_capacity, vec_len};
ghost use Rattle.be_workers.specs.Wanted.{HasRoom, IsChosen, ListsOwn, Suits, added, below};
ghost use Rattle.be_workers.specs.Wanted.{inserted, pushed, stands_at, wanted};

use be_geom::NoMemory;
use be_turns::Turns;
use std::alloc::Global;

/// The places that a turn wants: those of its activity, and what it came to need beside them. They
/// ascend. It keeps the own places of the activity that it was asked for last, so that the rules
/// are asked for them once where that stays the same. It takes no memory once it is made.
#[derive(Drop)]
pub struct Wants {
    owner: Option<u32>,
    own: Vec<u32>,
    places: Vec<u32>,
    more: Vec<u32>,
}

impl Wants {
    /// No place yet, and room for so many.
    pub fn new(alloc: Global, places: u32) -> Result<Wants, NoMemory>
        ensures none { IfOk result (λ w. (wanted w ≡ []) × (added w ≡ [])) }
        ensures room { IfOk result (λ w. HasRoom w places) }
        ensures unasked { IfOk result (λ w. w.owner ≡ None) }
    {
        let many = places as usize;
        Ok(Wants {
            owner: None,
            own: Vec::with_capacity(alloc, many)?,
            places: Vec::with_capacity(alloc, many)?,
            more: Vec::with_capacity(alloc, many)?,
        })
    }

    /// The places.
    pub fn places(&self) -> &[u32]
        ensures { result.now ≡ wanted self.now }
    {
        self.places.as_slice()
    }

    /// The activity's own places alone. It asks the rules about each place where the activity is
    /// another one than the last time, and else about none.
    pub fn own<W: Turns>(&mut self, rules: &W, who: u32)
        requires { Suits W.machine W.owns rules.now self.old }
        ensures suits { Suits W.machine W.owns rules.now self.new }
        ensures added { added self.new ≡ [] }
        ensures chosen { IsChosen W.machine W.owns rules.now who self.new }
    {
        self.more.clear();
        self.list_own(rules, who);
        copy(&mut self.places, self.own.as_slice());
    }

    /// One place more, beside those that were added since. It asks the rules about no place.
    pub fn add<W: Turns>(&mut self, rules: &W, who: u32, place: u32)
        requires suits { Suits W.machine W.owns rules.now self.old }
        requires chosen { IsChosen W.machine W.owns rules.now who self.old }
        requires few { length (added self.old) < (W.machine rules.now).places }
        ensures suits { Suits W.machine W.owns rules.now self.new }
        ensures added { added self.new ≡ added self.old ++ place ∷ [] }
        ensures chosen { IsChosen W.machine W.owns rules.now who self.new }
        ensures needed { place < (W.machine rules.now).places → Contains (wanted self.new) place }
    {
        self.more.push_reserved(place);
        if place < rules.places() {
            insert(&mut self.places, place);
        }
    }

    // Lists the own places of the activity, where they aren't listed yet.
    fn list_own<W: Turns>(&mut self, rules: &W, who: u32)
        requires { Suits W.machine W.owns rules.now self.old }
        ensures suits { Suits W.machine W.owns rules.now self.new }
        ensures own { ListsOwn W.machine W.owns rules.now who self.new }
        ensures added { added self.new ≡ added self.old }
    {
        if self.owner == Some(who) {
            return;
        }
        self.owner = None;
        self.own.clear();
        for place in 0..rules.places() {
            put(&mut self.own, place, rules.is_own(who, place));
        }
        self.owner = Some(who);
    }
}

// Puts the place behind the others, where it is wanted.
fn put(list: &mut Vec<u32>, place: u32, is_wanted: bool)
    requires { vec_len list.old < vec_capacity list.old }
    ensures places { list.new.items ≡ pushed is_wanted list.old.items place }
    ensures room { vec_capacity list.new ≡ vec_capacity list.old }
{
    if is_wanted {
        list.push_reserved(place);
    }
}

// Makes the list these places.
fn copy(list: &mut Vec<u32>, places: &[u32])
    requires { length places.now ≤ vec_capacity list.old }
    ensures places { list.new.items ≡ places.now }
    ensures room { vec_capacity list.new ≡ vec_capacity list.old }
{
    list.clear();
    for place in places {
        list.push_reserved(*place);
    }
}

// Puts the place where it stands in the order, if it isn't there yet.
fn insert(list: &mut Vec<u32>, place: u32)
    requires { length (inserted place list.old.items) ≤ vec_capacity list.old }
    ensures places { list.new.items ≡ inserted place list.old.items }
    ensures room { vec_capacity list.old ≤ vec_capacity list.new }
{
    let at = below(list.as_slice(), place);
    if stands_at(list.as_slice(), at, place) {
        return;
    }
    list.insert(at, place).unwrap();
}

// Whether the place is the one that stands there.
fn stands_at(list: &[u32], at: usize, place: u32) -> bool
    ensures { result ≡ stands_at list.now at place }
{
    at < list.len() && list[at] == place
}

// How many places at the front are less than this one.
fn below(list: &[u32], place: u32) -> usize
    ensures { result ≡ below place list.now }
{
    list.iter().take_while(|other| **other < place).count()
}

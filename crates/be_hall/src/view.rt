//! What a pass knows, the rule over all of them, and what each step tells.
ghost use Rattle.std.specs.Prelude.{List, []};

use crate::parts::Parts;
use atomic_table::{Join, Play, Split, TableRule};
use std::collections::LinkedList;
use std::marker::{Brand, PhantomData};
use std::snapshot::Snapshot;

/// What a hall was opened with.
pub struct About<P, M> {
    pub rules: P,
    pub opening: LinkedList<M>,
    pub limit: u64,
}

/// The rules, the parts and the limit with which a hall is made.
#[derive(Drop)]
pub struct Key<P, T> {
    pub rules: Snapshot<P>,
    pub opening: Snapshot<Vec<T>>,
    pub limit: u64,
}

/// One entry, its number, and what the parts in hand meant before it.
pub struct Commit<M, E> {
    pub number: u64,
    pub entry: E,
    pub before: LinkedList<(u32, M)>,
}

/// A place that a pass has marked, with what its part means, and its log.
pub struct Mark<M, E> {
    pub place: u32,
    pub meaning: M,
    pub log: LinkedList<(u64, E)>,
}

/// A pass as one of those that came of the first one: how many splits lie between the two, and how
/// many passes were split off it.
pub struct Branch {
    pub depth: u64,
    pub parted: u64,
}

/// What a pass knows. No value of it is made. The spent one is about nothing.
pub struct View<P, M, E> {
    pub about: LinkedList<About<P, M>>,
    pub seen: u64,
    pub own: LinkedList<Commit<M, E>>,
    /// The lists of the passes that were joined into this one.
    pub ended: LinkedList<LinkedList<Commit<M, E>>>,
    pub marks: LinkedList<Mark<M, E>>,
    pub missed: LinkedList<u32>,
    /// The places that it ever marked.
    pub had: LinkedList<u32>,
    /// Those that passes marked which were joined into it.
    pub met: LinkedList<u32>,
    /// The pass itself, and those that were joined into it.
    pub branches: LinkedList<Branch>,
    pub raised: bool,
    /// It knows that stop was raised.
    pub knows: bool,
    /// How many loads found that stop wasn't raised.
    pub quiet: u64,
}

/// Which entry a commit makes. Each call picks it.
pub trait Aim<E> {
    ghost entries: { List E };
}

impl<E> Aim<E> for Brand {
    ghost entries = { [] };
}

/// What holds of a table behind each play, and of a new one.
pub struct Law<P> {
    parts: PhantomData<P>,
}

impl<P: Parts> TableRule<Option<P::Part>, View<P, P::Meaning, P::Entry>, Key<P, P::Part>>
    for Law<P> {
    ghost use Rattle.be_hall.specs.Rule.{Kept};
    ghost use Rattle.be_hall.specs.Views.{blank};
    ghost use Rattle.be_hall.specs.Passes.{about_of};

    ghost holds = { λ k. Kept P.machine P.meaning P.log (about_of P.meaning k) };

    ghost first = { λ k. blank (about_of P.meaning k) };
}

/// A pass tries to mark the place of a part.
pub struct Marks<P> {
    parts: PhantomData<P>,
}

impl<P: Parts> Play<Option<P::Part>, View<P, P::Meaning, P::Entry>> for Marks<P> {
    ghost use Rattle.be_hall.specs.Steps.{tries};

    ghost then = { tries P.meaning P.log };
}

/// A pass lets go of a place that it marked.
pub struct Unmarks<P> {
    parts: PhantomData<P>,
}

impl<P: Parts> Play<Option<P::Part>, View<P, P::Meaning, P::Entry>> for Unmarks<P> {
    ghost use Rattle.be_hall.specs.Steps.{lets_go};

    ghost then = { lets_go };
}

/// A pass makes the next entry of the history.
pub struct Commits<P, J> {
    parts: PhantomData<(P, J)>,
}

impl<P: Parts, J: Aim<P::Entry>> Play<Option<P::Part>, View<P, P::Meaning, P::Entry>>
    for Commits<P, J> {
    ghost use Rattle.be_hall.specs.Steps.{commits};

    ghost then = { commits P.machine J.entries };
}

/// A pass is split off another one.
pub struct Parting;

impl<P, M, E> Split<View<P, M, E>> for Parting {
    ghost use Rattle.be_hall.specs.Views.{parting, parted};

    ghost left = { parting };

    ghost right = { parted };
}

/// A pass is joined into another one.
pub struct Joining;

impl<P, M, E> Join<View<P, M, E>> for Joining {
    ghost use Rattle.be_hall.specs.Views.{joined, spent};

    ghost both = { joined };

    ghost spent = { spent };
}

/// A pass looks at the clock, which tells how many entries there are.
pub struct Looks<P> {
    parts: PhantomData<P>,
}

impl<P: Parts> Play<Option<P::Part>, View<P, P::Meaning, P::Entry>> for Looks<P> {
    ghost use Rattle.be_hall.specs.Steps.{looks};

    ghost then = { looks P.machine };
}

/// A pass looks at another word, which tells as much, but not how many entries there are.
pub struct Glances<P> {
    parts: PhantomData<P>,
}

impl<P: Parts> Play<Option<P::Part>, View<P, P::Meaning, P::Entry>> for Glances<P> {
    ghost use Rattle.be_hall.specs.Steps.{glances};

    ghost then = { glances P.machine };
}

/// Stop is raised.
pub struct Raises;

impl<T, P, M, E> Play<Option<T>, View<P, M, E>> for Raises {
    ghost use Rattle.be_hall.specs.Steps.{raises};

    ghost then = { raises };
}

/// A pass asks whether stop was raised.
pub struct Asks;

impl<T, P, M, E> Play<Option<T>, View<P, M, E>> for Asks {
    ghost use Rattle.be_hall.specs.Steps.{asks};

    ghost then = { asks };
}

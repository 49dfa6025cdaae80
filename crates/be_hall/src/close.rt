//! How a hall is closed.
ghost use Rattle.std.specs.Prelude.{◌≡◌, ◌≢◌, ◌++◌, ◌+◌, ◌≤◌, ℕ, List, [], map, length, vec_len};
ghost use Rattle.std.specs.Prelude.{vec_capacity, IfOk, IfErr};
ghost use Rattle.std.specs.List.Sorted.{IsNonDecreasingBy, IsPermutation};
ghost use Rattle.be_hall.specs.Hands.{places_of, up_from};
ghost use Rattle.be_hall.specs.Numbers.{once};
ghost use Rattle.be_hall.specs.Views.{gathered};
ghost use Rattle.be_hall.specs.Logs.{logged, flat, InHistory};
ghost use Rattle.be_hall.specs.Steps.{Sees};
ghost use Rattle.be_hall.specs.Words.{IsPassOf, hands_of, in_hand, opened, rules_of, view_of};
ghost use Rattle.be_hall.specs.Closing.{Closes};
ghost use Rattle.be_hall.specs.Faults.{MatchFault};

use crate::fault::CloseFault;
use crate::hall::Hall;
use crate::parts::Parts;
use crate::pass::Pass;
use be_geom::NoMemory;
use std::alloc::Global;

/// What a closed hall gives.
#[derive(Drop)]
pub struct Closed<P: Parts + Drop> {
    pub rules: P,
    /// By place.
    pub parts: Vec<P::Part>,
    pub history: Vec<P::Entry>,
}

impl<P: Parts + Drop> Hall<P> {
    /// Ends the hall with a pass that holds every part: its rules, its parts and its history.
    pub fn close(self, mut pass: Pass<P>) -> Result<Closed<P>, CloseFault<P>>
        requires hall { IsPassOf P.meaning self pass }
        requires all { places_of (in_hand pass) ≡ up_from 0 (P.machine (rules_of self)).places }
        ensures rules { IfOk result (λ c. c.rules ≡ rules_of self) }
        ensures closed { IfOk result
            (λ c. Closes P.machine P.meaning P.log (opened P.meaning self) (view_of pass)
            (in_hand pass) c.parts.items c.history.items) }
        ensures refused { IfErr result (λ f. MatchFault f
            (λ clock made hall other. (made ≡ gathered (view_of pass)) × (clock ≢ made)
            × Sees P.machine (P.machine (rules_of self)).places (opened P.meaning self) clock
            (view_of pass) × (hall ≡ self) × (hands_of other ≡ hands_of pass)
            × (view_of other ≡ view_of pass) × IsPassOf P.meaning hall other)
            (λ hall other. Sees P.machine (P.machine (rules_of self)).places (opened P.meaning self)
            (gathered (view_of pass)) (view_of pass) × (hall ≡ self)
            × (hands_of other ≡ hands_of pass) × (view_of other ≡ view_of pass)
            × IsPassOf P.meaning hall other)) }
    {
        let clock = self.look(&mut pass.seat);
        if clock != pass.made {
            let gathered = pass.made;
            return Err(CloseFault::Unjoined {
                clock,
                gathered,
                hall: self,
                pass,
            });
        }
        let Ok((mut parts, mut pairs, mut history)) = make_room(
            self.alloc,
            self.book.places as usize,
            clock as usize,
        ) else {
            return Err(CloseFault::NoMemory { hall: self, pass });
        };
        let Hall { table, book, .. } = self;
        drop(table);
        let rules = book.rules;
        let Pass { held, .. } = pass;
        unlog_parts(&rules, held.into_parts(), &mut parts, &mut pairs);
        in_order(pairs, &mut history);
        Ok(Closed {
            rules,
            parts,
            history,
        })
    }
}

fn make_room<T: Drop, E: Drop>(
    alloc: Global,
    places: usize,
    entries: usize,
) -> Result<(Vec<T>, Vec<(u64, E)>, Vec<E>), NoMemory>
    ensures empty { IfOk result (λ r. (r.0.items ≡ []) × (r.1.items ≡ []) × (r.2.items ≡ [])) }
    ensures room { IfOk result
        (λ r. (places ≤ vec_capacity r.0) × (entries ≤ vec_capacity r.1)
        × (entries ≤ vec_capacity r.2)) }
{
    let parts = Vec::with_capacity(alloc, places)?;
    let pairs = Vec::with_capacity(alloc, entries)?;
    let history = Vec::with_capacity(alloc, entries)?;
    Ok((parts, pairs, history))
}

// Takes the pairs out of the parts' logs, part by part.
fn unlog_parts<P: Parts>(
    rules: &P,
    old: Vec<P::Part>,
    parts: &mut Vec<P::Part>,
    pairs: &mut Vec<(u64, P::Entry)>,
)
    requires parts { vec_len parts.old + vec_len old ≤ vec_capacity parts.old }
    requires pairs { vec_len pairs.old + length (flat (map P.log old.items))
        ≤ vec_capacity pairs.old }
    ensures parts { map P.meaning parts.new.items
        ≡ map P.meaning parts.old.items ++ map P.meaning old.items }
    ensures pairs { pairs.new.items ≡ pairs.old.items ++ flat (map P.log old.items) }
{
    for mut part in old {
        unlog_part(rules, &mut part, pairs);
        parts.push_reserved(part);
    }
}

// Takes the pairs out of the part's log.
fn unlog_part<P: Parts>(rules: &P, part: &mut P::Part, pairs: &mut Vec<(u64, P::Entry)>)
    requires { vec_len pairs.old + length (P.log part.old) ≤ vec_capacity pairs.old }
    ensures meaning { P.meaning part.new ≡ P.meaning part.old }
    ensures pairs { pairs.new.items ≡ pairs.old.items ++ P.log part.old }
    ensures room { vec_capacity pairs.new ≡ vec_capacity pairs.old }
{
    while let Some(pair) = rules.unlog(part) {
        pairs.push_reserved(pair);
    }
}

// Puts the entries behind one another by their numbers.
fn in_order<E: Drop>(mut pairs: Vec<(u64, E)>, history: &mut Vec<E>)
    requires room { vec_len history.old + vec_len pairs ≤ vec_capacity history.old }
    requires empty { history.old.items ≡ [] }
    ensures { (h : List E) → InHistory h pairs.items
        → ((n : ℕ) → logged n pairs.items ≡ once (length h) n) → history.new.items ≡ h }
{
    sort_pairs(&mut pairs);
    put_entries(pairs, history);
}

// Puts the pairs in the order of their numbers. Those of one part stand in order already, and the
// first sort goes by such runs: it costs the pairs times the logarithm of the parts. Where it finds
// no memory the second one does without.
fn sort_pairs<E: Drop>(pairs: &mut Vec<(u64, E)>)
    ensures permutation { IsPermutation pairs.old.items pairs.new.items }
    ensures len { vec_len pairs.new ≡ vec_len pairs.old }
    ensures sorted { IsNonDecreasingBy (λ x. x.0) pairs.new.items }
{
    match pairs.sort_by_key(|pair| pair.0) {
        Ok(()) => {}
        Err(_) => pairs.sort_unstable_by_key(|pair| pair.0),
    }
}

fn put_entries<E: Drop>(pairs: Vec<(u64, E)>, history: &mut Vec<E>)
    requires { vec_len history.old + vec_len pairs ≤ vec_capacity history.old }
    ensures { history.new.items ≡ history.old.items ++ map (λ x. x.1) pairs.items }
{
    for pair in pairs {
        history.push_reserved(pair.1);
    }
}

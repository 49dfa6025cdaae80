//! How a hall is opened.
ghost use Rattle.std.specs.Prelude.{◌≡◌, ◌+◌, ◌^◌, ◌<◌, ◌≤◌, [], map, length, All, Some, IfOk};
ghost use Rattle.std.specs.Prelude.{replicate, vec_len, vec_capacity};
ghost use Rattle.be_hall.specs.Numbers.{total};
ghost use Rattle.be_hall.specs.Machine.{AllFit};
ghost use Rattle.be_hall.specs.Views.{blank};
ghost use Rattle.be_hall.specs.Words.{IsPassOf, in_hand, opened, rules_of, view_of};

use crate::hall::Hall;
use crate::held::Held;
use crate::parts::Parts;
use crate::pass::Pass;
use crate::rulebook::Rulebook;
use crate::view::Key;
use crate::words::lock_of;
use atomic_table::{Refused, Table};
use be_geom::NoMemory;
use std::alloc::Global;
use std::snapshot::Snapshot;

impl<P: Parts + Drop> Hall<P> {
    /// A hall with these parts, by place, and its first pass. `limit` bounds how many entries there
    /// can be.
    pub fn open(
        alloc: Global,
        rules: P,
        parts: Vec<P::Part>,
        limit: u64,
    ) -> Result<(Hall<P>, Pass<P>), NoMemory>
        requires limit { limit ≤ 2 ^ 62 }
        requires sound { (P.machine rules).sound (map P.meaning parts.items) }
        requires budgets { total (P.machine rules).budget (map P.meaning parts.items) ≤ limit }
        requires fits { AllFit (P.machine rules).fits 0 (map P.meaning parts.items) }
        requires logs { All (λ x. P.log x ≡ []) parts.items }
        ensures hall { IfOk result (λ r. IsPassOf P.meaning r.0 r.1) }
        ensures rules { IfOk result (λ r. rules_of r.0 ≡ rules) }
        ensures opened { IfOk result (λ r. opened P.meaning r.0
            ≡ record { rules = rules; opening = map P.meaning parts.items; limit = limit }) }
        ensures pass { IfOk result
            (λ r. (view_of r.1 ≡ blank (opened P.meaning r.0)) × (in_hand r.1 ≡ [])) }
    {
        let key = Key {
            rules: Snapshot::of(&rules),
            opening: Snapshot::of(&parts),
            limit,
        };
        let places = rules.places();
        let held = Held::with_room(alloc, places as usize)?;
        let words = zeros(alloc, lock_of(places))?;
        let slots = wrapped(alloc, parts)?;
        match Table::new(alloc, words.as_slice(), slots, &key) {
            Ok((table, seat)) => {
                let hall = Hall {
                    table,
                    book: Rulebook { rules, places },
                    alloc,
                };
                let pass = Pass {
                    seat,
                    held,
                    made: 0,
                };
                Ok((hall, pass))
            }
            Err(Refused { slots: _ }) => Err(NoMemory),
        }
    }
}

fn wrapped<T: Drop>(alloc: Global, parts: Vec<T>) -> Result<Vec<Option<T>>, NoMemory>
    ensures { IfOk result (λ v. v.items ≡ map Some parts.items) }
{
    let Ok(mut slots) = Vec::with_capacity(alloc, parts.len()) else {
        return Err(NoMemory);
    };
    for part in parts {
        slots.push_reserved(Some(part));
    }
    Ok(slots)
}

fn zeros(alloc: Global, count: usize) -> Result<Vec<u64>, NoMemory>
    ensures { IfOk result (λ v. v.items ≡ replicate count 0) }
{
    let Ok(words) = vec![in alloc; 0u64; count] else {
        return Err(NoMemory);
    };
    Ok(words)
}

//! Who came where.
ghost use Rattle.std.specs.Prelude.{◌≡◌, ◌≤◌, IfOk, vec_len};

use be_geom::NoMemory;
use be_outside::Spot;
use std::alloc::Global;
use std::sync::atomic::{AtomicU64, Ordering};

/// How often each activity was at each spot.
#[derive(Drop)]
pub struct Visits {
    before: Vec<AtomicU64>,
    inside: Vec<AtomicU64>,
    after: Vec<AtomicU64>,
    ghost inside_for_each: { vec_len inside ≡ vec_len before },
    ghost after_for_each: { vec_len after ≡ vec_len before },
}

impl Visits {
    ghost use Rattle.run_gates.specs.Counted.{activities_of};

    /// Nobody was anywhere yet.
    pub fn new(alloc: Global, activities: u32) -> Result<Visits, NoMemory>
        ensures { IfOk result (λ v. activities_of v ≡ activities) }
    {
        let before = zeros(alloc, activities)?;
        let inside = zeros(alloc, activities)?;
        let after = zeros(alloc, activities)?;
        Ok(Visits {
            before,
            inside,
            after,
        })
    }

    /// How often the activity was there, up to the last number of 64 bits.
    pub fn count(&self, spot: Spot, who: u32) -> u64
        ensures { activities_of self.now ≤ who → result ≡ 0 }
    {
        match self.at(spot).get(who as usize) {
            Some(word) => word.load(Ordering::SeqCst),
            None => 0,
        }
    }

    /// Counts one visit, and answers its number, counted from 1.
    pub(crate) fn add(&self, spot: Spot, who: u32) -> u64
        ensures { activities_of self.now ≤ who → result ≡ 0 }
    {
        match self.at(spot).get(who as usize) {
            Some(word) => word.fetch_add(1, Ordering::SeqCst).saturating_add(1),
            None => 0,
        }
    }

    fn at(&self, spot: Spot) -> &Vec<AtomicU64>
        ensures { vec_len result.now ≡ activities_of self.now }
    {
        match spot {
            Spot::Before => &self.before,
            Spot::Inside => &self.inside,
            Spot::After => &self.after,
        }
    }
}

fn zeros(alloc: Global, many: u32) -> Result<Vec<AtomicU64>, NoMemory>
    ensures { IfOk result (λ v. vec_len v ≡ many) }
{
    let mut list = Vec::with_capacity(alloc, many as usize)?;
    for _place in 0..many {
        list.push_reserved(AtomicU64::new(0));
    }
    Ok(list)
}

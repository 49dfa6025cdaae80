//! Threads that share a hall of counters.
ghost use Rattle.std.specs.Prelude.{◌≡◌, ◌≢◌, ◌+◌, ◌*◌, ◌^◌, ◌<◌, ◌≤◌, [], ◌∷◌, true, All, map};
ghost use Rattle.std.specs.Prelude.{length, vec_len, vec_capacity, IfOk};
ghost use Rattle.be_hall.specs.Numbers.{total};
ghost use Rattle.be_hall.specs.Hands.{places_of, up_from, rises_from};
ghost use Rattle.be_hall.specs.Words.{IsPassOf, in_hand, rules_of};
ghost use Rattle.hall_counters.specs.Opening.{Opens};

use crate::counters::{Counter, Counters};
use crate::transfer::Transfer;
use be_geom::NoMemory;
use be_hall::{CloseFault, Closed, Hall, Pass, Verdict};
use std::alloc::Global;
use std::sync::Wait;
use std::thread;
use std::thread::Threads;

/// The counters at the start, each with so many units, of which it may give so many.
pub fn opening(alloc: Global, places: u32, units: u64, left: u64) -> Result<Vec<Counter>, NoMemory>
    requires { (units ≤ 2 ^ 62) × (left ≤ 2 ^ 30) }
    ensures { IfOk result (λ v. Opens places v.items) }
{
    let mut parts = Vec::with_capacity(alloc, places as usize)?;
    for _place in 0..places {
        parts.push_reserved(Counter::new(alloc, units, left));
    }
    Ok(parts)
}

/// A hall of such counters, and its first pass.
pub fn start(
    alloc: Global,
    rules: Counters,
    units: u64,
    left: u64,
) -> Result<(Hall<Counters>, Pass<Counters>), NoMemory>
    requires { (units ≤ 2 ^ 62) × (left ≤ 2 ^ 30) }
    ensures hall { IfOk result (λ r. IsPassOf (λ x. x.count) r.0 r.1) }
    ensures pass { IfOk result (λ r. (in_hand r.1 ≡ []) × (rules_of r.0 ≡ rules)) }
{
    let parts = opening(alloc, rules.places, units, left)?;
    Hall::open(alloc, rules, parts, 1 << 62)
}

/// Makes one transfer with the counters in hand, where that may be.
pub fn make(hall: &Hall<Counters>, pass: &mut Pass<Counters>, transfer: &Transfer) -> bool
    requires { IsPassOf (λ x. x.count) hall.now pass.old }
    ensures { IsPassOf (λ x. x.count) hall.now pass.new }
{
    match hall.prepare(pass, transfer) {
        Ok(Verdict::Ready(ready)) => {
            hall.commit(pass, ready);
            true
        }
        _ => false,
    }
}

/// What one thread does: the same transfer so often.
#[derive(Drop)]
pub struct Turn {
    pub pass: Pass<Counters>,
    pub transfer: Transfer,
    pub commits: u32,
}

fn work<R: Wait>(rt: &R, hall: &Hall<Counters>, turn: Turn) -> Pass<Counters>
    requires pass { IsPassOf (λ x. x.count) hall.now turn.pass × (in_hand turn.pass ≡ []) }
    requires places { (turn.transfer.source < (rules_of hall.now).places)
        × (turn.transfer.target < (rules_of hall.now).places)
        × (turn.transfer.source ≢ turn.transfer.target) }
    ensures { IsPassOf (λ x. x.count) hall.now result × (in_hand result ≡ []) }
{
    let Turn {
        mut pass,
        transfer,
        commits,
    } = turn;
    let Transfer { source, target } = transfer;
    let places = [source.min(target), source.max(target)];
    for _ in 0..commits {
        hall.take(rt, &mut pass, &places);
        make(hall, &mut pass, &transfer);
        hall.give(&mut pass);
    }
    pass
}

/// As many threads as turns.
pub fn many<R: Threads + Wait + Sync>(
    rt: &R,
    hall: &Hall<Counters>,
    turns: Vec<Turn>,
) -> Result<Vec<Pass<Counters>>, NoMemory>
    requires { All (λ t. IsPassOf (λ x. x.count) hall.now t.pass × (in_hand t.pass ≡ [])
        × (t.transfer.source < (rules_of hall.now).places)
        × (t.transfer.target < (rules_of hall.now).places)
        × (t.transfer.source ≢ t.transfer.target)) turns.items }
    ensures { IfOk result
        (λ v. All (λ p. IsPassOf (λ x. x.count) hall.now p × (in_hand p ≡ [])) v.items) }
{
    Ok(thread::map_vec(
        rt,
        turns,
        &|turn: Turn| -> Pass<Counters>
            requires { IsPassOf (λ x. x.count) hall.now turn.pass × (in_hand turn.pass ≡ [])
                × (turn.transfer.source < (rules_of hall.now).places)
                × (turn.transfer.target < (rules_of hall.now).places)
                × (turn.transfer.source ≢ turn.transfer.target) }
            ensures { IsPassOf (λ x. x.count) hall.entry.now result × (in_hand result ≡ []) }
        { work(rt, hall, turn) },
    )?)
}

/// Joins the passes into one, and closes the hall.
pub fn finish<R: Wait>(
    rt: &R,
    alloc: Global,
    hall: Hall<Counters>,
    mut pass: Pass<Counters>,
    passes: Vec<Pass<Counters>>,
) -> Result<Closed<Counters>, NoMemory>
    requires pass { IsPassOf (λ x. x.count) hall pass × (in_hand pass ≡ []) }
    requires passes { All (λ p. IsPassOf (λ x. x.count) hall p × (in_hand p ≡ [])) passes.items }
{
    for other in passes {
        hall.join(&mut pass, other);
    }
    let all = all_places(alloc, hall.rules().places)?;
    hall.take(rt, &mut pass, all.as_slice());
    match hall.close(pass) {
        Ok(closed) => Ok(closed),
        Err(_) => Err(NoMemory),
    }
}

fn all_places(alloc: Global, places: u32) -> Result<Vec<u32>, NoMemory>
    ensures all { IfOk result (λ v. v.items ≡ up_from 0 places) }
    ensures rise { IfOk result (λ v. rises_from 0 v.items ≡ true) }
    ensures there { IfOk result (λ v. All (λ p. p < places) v.items) }
{
    let mut all = Vec::with_capacity(alloc, places as usize)?;
    for place in 0..places {
        all.push_reserved(place);
    }
    Ok(all)
}

/// As many threads as transfers, each of which makes its transfer so often, and the closed hall.
pub fn run<R: Threads + Wait + Sync>(
    rt: &R,
    alloc: Global,
    rules: Counters,
    transfers: &[Transfer],
    commits: u32,
) -> Result<Closed<Counters>, NoMemory>
    requires { All (λ t. (t.source < rules.places) × (t.target < rules.places)
        × (t.source ≢ t.target)) transfers.now }
{
    let (hall, mut pass) = start(alloc, rules, 1 << 30, 1 << 30)?;
    let mut turns = Vec::with_capacity(alloc, transfers.len())?;
    for i in 0..transfers.len() {
        let part = hall.split(&mut pass)?;
        turns.push_reserved(Turn {
            pass: part,
            transfer: transfers[i],
            commits,
        });
    }
    let passes = many(rt, &hall, turns)?;
    finish(rt, alloc, hall, pass, passes)
}

/// So many threads of at most four, each with counters of its own or all with one in common.
/// Between the counters of two threads one is left alone: the slots of a hall lie side by side, and
/// two that share a line of the processor's cache make their threads wait for each other.
pub fn time<R: Threads + Wait + Sync>(
    rt: &R,
    alloc: Global,
    rules: Counters,
    threads: usize,
    own: bool,
    commits: u32,
) -> Result<usize, NoMemory>
    requires { rules.places ≡ 12 }
{
    let most = threads.min(4);
    let mut transfers = Vec::with_capacity(alloc, most)?;
    for i in 0..most {
        let place = i as u32;
        let (source, target) = if own {
            (3 * place, 3 * place + 1)
        } else {
            (0, place + 1)
        };
        transfers.push_reserved(Transfer { source, target });
    }
    let closed = run(rt, alloc, rules, transfers.as_slice(), commits)?;
    Ok(closed.history.len())
}

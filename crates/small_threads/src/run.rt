//! A run of the small world.
ghost use Rattle.std.specs.Prelude.{◌≡◌, ◌^◌, ◌≤◌, [], All, IfOk, map};
ghost use Rattle.be_hall.specs.Numbers.{total};
ghost use Rattle.be_hall.specs.Machine.{AllFit};
ghost use Rattle.be_turns.specs.Turning.{IsFinished};
ghost use Rattle.small_world.specs.Counting.{IsSound, is_close, passing};
ghost use Rattle.small_world.specs.Counters.{count_of, log_of};

use crate::crew::work_all;
use be_bells::Bells;
use be_geom::NoMemory;
use be_hall::{Closed, Hall};
use be_outside::Gate;
use be_workers::{Spread, finish, hire};
use small_world::{Counter, World};
use std::alloc::Global;
use std::sync::Wait;
use std::thread::Threads;

/// Runs all activities of the world, each on a thread of its own, and gives the history that they
/// made. It may never return. There may be at most 128 activities.
pub fn run_on_threads<R: Threads + Wait + Sync, G: Gate + Sync>(
    rt: &R,
    alloc: Global,
    world: World,
    parts: Vec<Counter>,
    gate: &G,
) -> Result<Closed<World>, NoMemory>
    requires sound { IsSound world (map count_of parts.items) }
    requires budgets { total (passing world).budget (map count_of parts.items) ≤ 2 ^ 62 }
    requires fits { AllFit (passing world).fits 0 (map count_of parts.items) }
    requires logs { All (λ x. log_of x ≡ []) parts.items }
    ensures rules { IfOk result (λ c. c.rules ≡ world) }
    ensures finished { IfOk result (λ c. IsFinished (passing world) (λ step. is_close step)
        (map count_of parts.items) c.history.items (map count_of c.parts.items)) }
{
    run(rt, alloc, world, parts, gate, Spread::Apart)
}

/// A run on this thread alone: one worker begins where the one before it has ended. Each
/// stands in for those that haven't begun.
pub fn run_on_one_thread<R: Threads + Wait + Sync, G: Gate + Sync>(
    rt: &R,
    alloc: Global,
    world: World,
    parts: Vec<Counter>,
    gate: &G,
) -> Result<Closed<World>, NoMemory>
    requires sound { IsSound world (map count_of parts.items) }
    requires budgets { total (passing world).budget (map count_of parts.items) ≤ 2 ^ 62 }
    requires fits { AllFit (passing world).fits 0 (map count_of parts.items) }
    requires logs { All (λ x. log_of x ≡ []) parts.items }
    ensures rules { IfOk result (λ c. c.rules ≡ world) }
    ensures finished { IfOk result (λ c. IsFinished (passing world) (λ step. is_close step)
        (map count_of parts.items) c.history.items (map count_of c.parts.items)) }
{
    run(rt, alloc, world, parts, gate, Spread::InTurn)
}

// A run on these threads.
fn run<R: Threads + Wait + Sync, G: Gate + Sync>(
    rt: &R,
    alloc: Global,
    world: World,
    parts: Vec<Counter>,
    gate: &G,
    spread: Spread,
) -> Result<Closed<World>, NoMemory>
    requires sound { IsSound world (map count_of parts.items) }
    requires budgets { total (passing world).budget (map count_of parts.items) ≤ 2 ^ 62 }
    requires fits { AllFit (passing world).fits 0 (map count_of parts.items) }
    requires logs { All (λ x. log_of x ≡ []) parts.items }
    ensures rules { IfOk result (λ c. c.rules ≡ world) }
    ensures finished { IfOk result (λ c. IsFinished (passing world) (λ step. is_close step)
        (map count_of parts.items) c.history.items (map count_of c.parts.items)) }
{
    let places = world.closing() + 1;
    let (hall, mut pass) = Hall::open(alloc, world, parts, 1 << 62)?;
    let mut workers = hire(alloc, &hall, &mut pass)?;
    let bells = Bells::new(alloc, places, places)?;
    work_all(rt, gate, &hall, &bells, workers.as_mut_slice(), spread);
    finish(rt, alloc, hall, pass, workers)
}

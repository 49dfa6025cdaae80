//! A run of a script.
ghost use Rattle.std.specs.Prelude.{IfOk};
ghost use Rattle.be_runs.specs.Runs.{Leaves};

use crate::crew::work_all;
use be_bells::Bells;
use be_geom::NoMemory;
use be_hall::{Hall, Parts};
use be_noted::Noting;
use be_outside::Gate;
use be_runs::Finished;
use be_turns::Turns;
use be_workers::{Spread, finish, hire};
use be_world::World;
use std::alloc::Global;
use std::sync::Wait;
use std::thread::Threads;

/// Runs all activities of a script, each on a thread of its own, and gives the history that they
/// made. It may never return. Where a thread couldn't be started, its work is done by the others.
pub fn run_on_threads<R: Threads + Wait + Sync, G: Gate + Sync>(
    rt: &R,
    alloc: Global,
    world: World,
    gate: &G,
) -> Result<Finished, NoMemory>
    ensures { IfOk result (Leaves world) }
{
    run(rt, alloc, world, gate, Spread::Apart)
}

/// A run on this thread alone: one worker begins where the one before it has ended. Each
/// stands in for those that haven't begun.
pub fn run_on_one_thread<R: Threads + Wait + Sync, G: Gate + Sync>(
    rt: &R,
    alloc: Global,
    world: World,
    gate: &G,
) -> Result<Finished, NoMemory>
    ensures { IfOk result (Leaves world) }
{
    run(rt, alloc, world, gate, Spread::InTurn)
}

// A run on these threads.
fn run<R: Threads + Wait + Sync, G: Gate + Sync>(
    rt: &R,
    alloc: Global,
    world: World,
    gate: &G,
    spread: Spread,
) -> Result<Finished, NoMemory>
    ensures { IfOk result (Leaves world) }
{
    let noting = Noting::new(world);
    let places = noting.places();
    let activities = noting.activities();
    let parts = noting.opening()?;
    let (hall, mut pass) = Hall::open(alloc, noting, parts, 1 << 62)?;
    let mut workers = hire(alloc, &hall, &mut pass)?;
    let bells = Bells::new(alloc, activities, places)?;
    work_all(rt, gate, &hall, &bells, workers.as_mut_slice(), spread);
    let closed = finish(rt, alloc, hall, pass, workers)?;
    Ok(Finished {
        world: closed.rules.into_world(),
        history: closed.history,
        parts: closed.parts,
    })
}

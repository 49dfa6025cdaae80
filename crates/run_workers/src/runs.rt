//! Runs of the small world, one after the other.

use crate::stirs::Stirs;
use be_geom::NoMemory;
use be_outside::{Gate, Spot};
use be_serial::run_serial;
use small_threads::run_on_threads;
use small_world::World;
use std::alloc::Global;
use std::sync::Wait;
use std::thread::Threads;

/// On what a run is made.
#[derive(Clone, Copy)]
pub enum Driver {
    /// A thread for each activity.
    Threads,
    /// One thread without workers.
    One,
}

/// What is to be run.
#[derive(Clone, Copy)]
pub struct Orders {
    pub driver: Driver,
    pub world: World,
    /// Units for each producer.
    pub each: u32,
    /// Units that the first consumer has at the start.
    pub stored: u32,
    /// Rounds of work for each step.
    pub work: u32,
    pub runs: u32,
}

/// How many steps all runs made, each from the start.
pub fn run_often<R: Threads + Wait + Sync>(
    rt: &R,
    alloc: Global,
    orders: Orders,
) -> Result<u64, NoMemory> {
    let mut made = 0u64;
    for _run in 0..orders.runs {
        let gate = Stirs::new(alloc, orders.world.closing() + 1, orders.work)?;
        let steps = match orders.driver {
            Driver::Threads => run_threads(rt, alloc, orders, &gate)?,
            Driver::One => run_one(alloc, orders, &gate)?,
        };
        made = made.saturating_add(steps);
    }
    Ok(made)
}

fn run_threads<R: Threads + Wait + Sync>(
    rt: &R,
    alloc: Global,
    orders: Orders,
    gate: &Stirs,
) -> Result<u64, NoMemory> {
    let parts = orders.world.opening(alloc, orders.each, orders.stored)?;
    let closed = run_on_threads(rt, alloc, orders.world, parts, gate)?;
    Ok(closed.history.len() as u64)
}

// The work of all steps comes behind the run, which asks no gate.
fn run_one(alloc: Global, orders: Orders, gate: &Stirs) -> Result<u64, NoMemory> {
    let parts = orders.world.opening(alloc, orders.each, orders.stored)?;
    let ran = run_serial(alloc, orders.world, parts, 1 << 62, 0)?;
    for step in ran.history.iter() {
        gate.at(Spot::Inside, orders.world.actor_of(*step));
    }
    Ok(ran.history.len() as u64)
}

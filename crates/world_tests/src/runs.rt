//! Runs of scripts, and what each of them has to be.
ghost use Rattle.std.specs.Prelude.{IfOk};
ghost use Rattle.be_runs.specs.Runs.{Leaves};

use be_geom::NoMemory;
use be_machine::{Act, Entry};
use be_outside::{Gate, Spot};
use be_reader::{ScriptFault, read};
use be_runs::{Finished, run_alone};
use be_shown::Shown;
use be_threads::{run_on_one_thread, run_on_threads};
use be_turns::Turns;
use be_world::World;
use be_written::{Page, write_screen};
use run_gates::Visits;
use std::alloc::Global;
use std::sync::Wait;
use std::thread::Threads;

/// On what a run is made.
#[derive(Clone, Copy)]
pub(crate) enum Driver {
    /// A thread for each activity.
    Threads,
    /// One thread, on which the workers work one after the other.
    OneThread,
    /// One thread without workers, which asks no gate.
    Alone,
}

/// The world of a script.
pub(crate) fn world_of(alloc: Global, script: &[u8]) -> Result<Option<World>, NoMemory> {
    match read(alloc, script) {
        Ok(script) => Ok(Some(World::new(alloc, script)?)),
        Err(ScriptFault::At { .. }) => Ok(None),
        Err(ScriptFault::NoMemory) => Err(NoMemory),
    }
}

/// A run of the script.
pub(crate) fn run<R: Threads + Wait + Sync, G: Gate + Sync>(
    rt: &R,
    alloc: Global,
    driver: Driver,
    world: World,
    gate: &G,
) -> Result<Finished, NoMemory>
    ensures { IfOk result (Leaves world) }
{
    match driver {
        Driver::Threads => run_on_threads(rt, alloc, world, gate),
        Driver::OneThread => run_on_one_thread(rt, alloc, world, gate),
        Driver::Alone => run_alone(alloc, world, 0),
    }
}

/// The lines of the screen after a run.
pub(crate) fn screen_of(alloc: Global, run: &Finished) -> Result<Page, NoMemory>
    requires { Leaves run.now.world run.now }
{
    let mut page = Page::new(alloc);
    let screen = Shown::new(alloc, run.world.script(), run.parts.as_slice())?;
    write_screen(&mut page, &screen)?;
    Ok(page)
}

/// The last entry is Stop, each activity but the closing one was at Inside exactly as often as the
/// history has entries of it, and each turn that began ended.
pub(crate) fn asks_at_each_spot(run: &Finished, visits: &Visits) -> bool {
    let closing = run.world.activities().saturating_sub(1);
    let asked = (0..closing).all(|who| visits.count(Spot::Inside, who) == entries_of(run, who));
    asked && (0..closing).all(|who| ends_turns(visits, who)) && is_closed(run)
}

fn is_closed(run: &Finished) -> bool {
    matches!(run.history.last(), Some(Entry { act: Act::Stop, .. }))
}

fn ends_turns(visits: &Visits, who: u32) -> bool {
    let ended = visits.count(Spot::After, who);
    visits.count(Spot::Before, who) == ended && visits.count(Spot::Inside, who) <= ended
}

fn entries_of(run: &Finished, who: u32) -> u64 {
    run.history
        .iter()
        .filter(|entry| entry.actor == who)
        .count() as u64
}

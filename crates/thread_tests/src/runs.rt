//! Runs of the small world, and what each of them has to be.
ghost use Rattle.std.specs.Prelude.{◌<◌};

use crate::replay::Tally;
use be_geom::NoMemory;
use be_outside::{Gate, Spot};
use be_serial::run_serial;
use run_gates::Visits;
use small_threads::{run_on_one_thread, run_on_threads};
use small_world::{Counter, Step, World};
use std::alloc::{AllocError, Global};
use std::process::Abort;
use std::sync::Wait;
use std::thread::Threads;

/// On what a run is made.
#[derive(Clone, Copy)]
pub(crate) enum Driver {
    /// A thread for each activity.
    Threads,
    /// One thread, on which the workers work one after the other.
    OneThread,
    /// One thread without workers, which asks no gate.
    Serial,
}

/// So many producers, each with so many units to give, and consumers.
#[derive(Clone, Copy, Debug)]
pub(crate) struct Size {
    pub producers: u16,
    pub consumers: u16,
    pub each: u32,
}

impl Size {
    /// How many activities there are, the closing one among them.
    pub(crate) fn activities(self) -> u32 {
        u32::from(self.producers) + u32::from(self.consumers) + 1
    }
}

/// What a run made.
#[derive(Drop)]
pub(crate) struct Made {
    pub world: World,
    pub history: Vec<Step>,
    pub parts: Vec<Counter>,
}

/// A run. None where there is no consumer.
pub(crate) fn run<R: Threads + Wait + Sync, G: Gate + Sync>(
    rt: &R,
    alloc: Global,
    driver: Driver,
    size: Size,
    gate: &G,
) -> Result<Option<Made>, NoMemory> {
    if size.consumers == 0 {
        return Ok(None);
    }
    let world = World {
        producers: size.producers,
        consumers: size.consumers,
    };
    let parts = world.opening(alloc, size.each, 0)?;
    let (history, parts) = match driver {
        Driver::Threads => {
            let closed = run_on_threads(rt, alloc, world, parts, gate)?;
            (closed.history, closed.parts)
        }
        Driver::OneThread => {
            let closed = run_on_one_thread(rt, alloc, world, parts, gate)?;
            (closed.history, closed.parts)
        }
        Driver::Serial => {
            let ran = run_serial(alloc, world, parts, 1 << 62, 0)?;
            (ran.history, ran.parts)
        }
    };
    Ok(Some(Made {
        world,
        history,
        parts,
    }))
}

/// Each step of the history is one that its actor may make then, the closing one is last, and every
/// unit was given and used up.
pub(crate) fn check_history(
    rt: &impl Abort,
    alloc: Global,
    size: Size,
    made: &Made,
) -> Result<(), AllocError> {
    let mut tally = Tally::new(alloc, made.world, size.each)?;
    for (number, step) in made.history.iter().enumerate() {
        assert!(rt;
            tally.make(*step).is_some(),
            "{step:?} at {number} of {size:?}"
        );
    }
    assert!(rt; tally.is_over(), "{size:?}");
    let steps = 2 * u64::from(size.producers) * u64::from(size.each) + 1;
    assert_eq!(rt; made.history.len() as u64, steps, "{size:?}");
    assert_eq!(rt; made.history.last().copied(), Some(Step::Close), "{size:?}");
    check_parts(rt, size, &made.parts);
    Ok(())
}

fn check_parts(rt: &impl Abort, size: Size, parts: &Vec<Counter>) {
    assert_eq!(rt;
        parts.len() as u64,
        u64::from(size.activities()),
        "{size:?}"
    );
    for part in parts {
        let count = part.count();
        assert_eq!(rt; (count.left, count.units), (0, 0), "{size:?}");
    }
}

/// Each activity but the closing one was at Inside exactly as often as the history has steps of it,
/// and each turn that began ended.
pub(crate) fn asks_at_each_spot(made: &Made, visits: &Visits) -> bool {
    let closing = made.world.closing();
    let asked = (0..closing).all(|who| visits.count(Spot::Inside, who) == steps_of(made, who));
    asked && (0..closing).all(|who| ends_turns(visits, who))
}

fn ends_turns(visits: &Visits, who: u32) -> bool {
    let ended = visits.count(Spot::After, who);
    visits.count(Spot::Before, who) == ended && visits.count(Spot::Inside, who) <= ended
}

fn steps_of(made: &Made, who: u32) -> u64 {
    let steps = made.history.iter();
    let own = steps.filter(|step| made.world.actor_of(**step) == who);
    own.count() as u64
}

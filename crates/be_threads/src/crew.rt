//! All workers at once.
ghost use Rattle.std.specs.Prelude.{All};
ghost use Rattle.be_machine.specs.Activities.{activities};
ghost use Rattle.be_noted.specs.Noting.{noted_of};
ghost use Rattle.be_workers.specs.Workers.{AreWorkers, IsDone};
ghost use Rattle.be_world.specs.Turns.{is_last, is_own};
ghost use Rattle.be_jotted.specs.Jotting.{noted_machine};

use be_bells::Bells;
use be_hall::Hall;
use be_noted::Noting;
use be_outside::Gate;
use be_workers::{Spread, Worker, for_each, work};
use std::sync::Wait;
use std::thread::Threads;

/// Each worker works, on these threads. It may never return.
pub(crate) fn work_all<R: Threads + Wait + Sync, G: Gate + Sync>(
    rt: &R,
    gate: &G,
    hall: &Hall<Noting>,
    bells: &Bells,
    workers: &mut [Worker<Noting>],
    spread: Spread,
)
    requires { AreWorkers (λ it. noted_machine it) (λ part. noted_of part)
        (λ it activity place. is_own it activity place) (λ it. activities it)
        hall.now workers.old }
    ensures { All (IsDone (λ part. noted_of part) (λ entry. is_last entry.act) hall.now)
        workers.new }
{
    for_each(
        rt,
        workers,
        spread,
        &|_, worker: &mut Worker<Noting>| { work(rt, gate, hall, bells, worker) },
    );
}

//! All workers at once.
ghost use Rattle.std.specs.Prelude.{◌+◌, All};
ghost use Rattle.be_workers.specs.Workers.{AreWorkers, IsDone};
ghost use Rattle.small_world.specs.Counting.{closing_place, is_close, is_wanted, passing};
ghost use Rattle.small_world.specs.Counters.{count_of};

use be_bells::Bells;
use be_hall::Hall;
use be_outside::Gate;
use be_workers::{Spread, Worker, for_each, work};
use small_world::World;
use std::sync::Wait;
use std::thread::Threads;

/// Each worker works, on these threads. It may never return.
pub(crate) fn work_all<R: Threads + Wait + Sync, G: Gate + Sync>(
    rt: &R,
    gate: &G,
    hall: &Hall<World>,
    bells: &Bells,
    workers: &mut [Worker<World>],
    spread: Spread,
)
    requires { AreWorkers (λ w. passing w) (λ x. count_of x)
        (λ w activity place. is_wanted w activity place) (λ w. closing_place w + 1)
        hall.now workers.old }
    ensures { All (IsDone (λ x. count_of x) (λ step. is_close step) hall.now) workers.new }
{
    for_each(
        rt,
        workers,
        spread,
        &|_, worker: &mut Worker<World>| { work(rt, gate, hall, bells, worker) },
    );
}

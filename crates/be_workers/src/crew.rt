//! All workers, one for each activity.
ghost use Rattle.std.specs.Prelude.{◌≡◌, All, IfOk};
ghost use Rattle.be_hall.specs.Hands.{up_from};
ghost use Rattle.be_hall.specs.Words.{IsPassOf, hands_of, rules_of};
ghost use Rattle.be_workers.specs.Turned.{IsFresh, KeepsCommits};
ghost use Rattle.be_workers.specs.Workers.{AreWorkers, IsDone, IsWorker, MayEnd, whose};

use crate::tools::Tools;
use crate::wants::Wants;
use crate::worker::{End, PATIENCE, Worker};
use be_bells::Bells;
use be_geom::NoMemory;
use be_hall::{Hall, Pass};
use be_outside::Gate;
use be_turns::Turns;
use std::alloc::Global;
use std::sync::Wait;

/// A worker for each activity, in order of number, with room for all places. None has made an
/// entry.
pub fn hire<W: Turns + Drop>(
    alloc: Global,
    hall: &Hall<W>,
    pass: &mut Pass<W>,
) -> Result<Vec<Worker<W>>, NoMemory>
    requires { IsPassOf W.meaning hall.now pass.old }
    ensures hall { IsPassOf W.meaning hall.now pass.new }
    ensures kept { KeepsCommits pass.old pass.new }
    ensures held { hands_of pass.new ≡ hands_of pass.old }
    ensures all { IfOk result (λ v. whose v.items ≡ up_from 0 (W.activities (rules_of hall.now))) }
    ensures fit { IfOk result
        (λ v. AreWorkers W.machine W.meaning W.owns W.activities hall.now v.items) }
    ensures new { IfOk result (λ v. All (λ w. IsFresh w.pass) v.items) }
{
    let places = hall.rules().places();
    let many = hall.rules().activities();
    let mut workers = Vec::with_capacity(alloc, many as usize)?;
    for who in 0..many {
        let part = hall.split(pass)?;
        let wants = Wants::new(alloc, places)?;
        workers.push_reserved(Worker {
            who,
            pass: part,
            wants,
            end: End::Over,
            patience: PATIENCE,
        });
    }
    Ok(workers)
}

/// What the thread of a worker does: it works until its activity is over, or it is told to stop. It
/// may never return.
pub fn work<'a, R: Wait, G: Gate, W: Turns + Drop>(
    rt: &'a R,
    gate: &'a G,
    hall: &Hall<W>,
    bells: &'a Bells,
    worker: &mut Worker<W>,
)
    requires { IsWorker W.machine W.meaning W.owns W.activities hall.now worker.old }
    ensures done { IsDone W.meaning W.stops hall.now worker.new }
    ensures over { worker.new.end ≡ End.Over → MayEnd W.machine W.legal hall.now worker.new }
    ensures who { worker.new.who ≡ worker.old.who }
{
    bells.begin(worker.who);
    let tools = Tools { rt, gate, bells };
    worker.end = worker.labour(&tools, hall);
    bells.leave(worker.who);
}

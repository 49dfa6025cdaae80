//! How a run ends.
ghost use Rattle.std.specs.Prelude.{◌≡◌, ◌<◌, ◌↔◌, true, All, Any, IfOk, IsTrue, OnOk};
ghost use Rattle.be_hall.specs.Hands.{places_of, rises_from, up_from};
ghost use Rattle.be_hall.specs.Words.{IsPassOf, in_hand, opened, rules_of, view_of};
ghost use Rattle.be_workers.specs.Turned.{HasStop, IsFree};
ghost use Rattle.be_workers.specs.Workers.{CanClose, Finishes, IsDone, SomeEnds};

use crate::worker::{End, Worker};
use be_geom::NoMemory;
use be_hall::{CloseFault, Closed, Hall, Pass};
use be_turns::Turns;
use std::alloc::Global;
use std::sync::Wait;

// Whether a worker ended so.
fn some_ends<W: Turns>(workers: &[Worker<W>], end: End) -> bool
    ensures { IsTrue result ↔ SomeEnds end workers.now }
{
    workers.iter().any(|worker| worker.end == end)
}

// Joins the passes of all workers into one.
fn join_all<W: Turns + Drop>(hall: &Hall<W>, pass: &mut Pass<W>, workers: Vec<Worker<W>>)
    requires pass { IsFree W.meaning hall.now pass.old }
    requires workers { All (IsDone W.meaning W.stops hall.now) workers.items }
    ensures pass { IsFree W.meaning hall.now pass.new }
    ensures stops { SomeEnds End.Closed workers.items
        → Any (HasStop W.stops) (view_of pass.new).ended }
{
    for worker in workers {
        let Worker { pass: other, .. } = worker;
        hall.join(pass, other);
    }
}

/// Joins the passes of all workers, and closes the hall. It answers NoMemory where a worker met
/// want of memory and where none made the closing entry, and else only where there is no memory
/// for the list of all places or for the history. It may never return.
pub fn finish<R: Wait, W: Turns + Drop>(
    rt: &R,
    alloc: Global,
    hall: Hall<W>,
    mut pass: Pass<W>,
    workers: Vec<Worker<W>>,
) -> Result<Closed<W>, NoMemory>
    requires pass { IsFree W.meaning hall pass }
    requires sound { (W.machine (rules_of hall)).sound (opened W.meaning hall).opening }
    requires workers { All (IsDone W.meaning W.stops hall) workers.items }
    ensures rules { IfOk result (λ c. c.rules ≡ rules_of hall) }
    ensures finished { IfOk result (Finishes W.machine W.meaning W.stops hall) }
    ensures ended { OnOk result (CanClose workers.items) }
{
    if some_ends(workers.as_slice(), End::NoMemory) {
        return Err(NoMemory);
    }
    if !some_ends(workers.as_slice(), End::Closed) {
        return Err(NoMemory);
    }
    join_all(&hall, &mut pass, workers);
    let all = all_places(alloc, hall.rules().places())?;
    hall.take(rt, &mut pass, all.as_slice());
    shut(rt, hall, pass)
}

// Closes the hall. A pass is out where it can't, so it asks again.
fn shut<R: Wait, W: Turns + Drop>(
    rt: &R,
    hall: Hall<W>,
    pass: Pass<W>,
) -> Result<Closed<W>, NoMemory>
    requires pass { IsPassOf W.meaning hall pass }
    requires all { places_of (in_hand pass) ≡ up_from 0 (W.machine (rules_of hall)).places }
    requires sound { (W.machine (rules_of hall)).sound (opened W.meaning hall).opening }
    requires stops { Any (HasStop W.stops) (view_of pass).ended }
    ensures rules { IfOk result (λ c. c.rules ≡ rules_of hall) }
    ensures finished { IfOk result (Finishes W.machine W.meaning W.stops hall) }
{
    let mut open = (hall, pass);
    for _ in rt.forever() {
        let (hall, pass) = open;
        match hall.close(pass) {
            Ok(closed) => return Ok(closed),
            Err(CloseFault::Unjoined { hall, pass, .. }) => open = (hall, pass),
            Err(CloseFault::NoMemory { .. }) => return Err(NoMemory),
        }
    }
    unreachable!()
}

fn all_places(alloc: Global, places: u32) -> Result<Vec<u32>, NoMemory>
    ensures all { IfOk result (λ v. v.items ≡ up_from 0 places) }
    ensures rise { IfOk result (λ v. rises_from 0 v.items ≡ true) }
    ensures there { IfOk result (λ v. All (λ p. p < places) v.items) }
{
    let mut all = Vec::with_capacity(alloc, places as usize)?;
    for place in 0..places {
        all.push_reserved(place);
    }
    Ok(all)
}

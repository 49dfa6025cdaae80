ghost use Rattle.std.specs.Prelude.{◌≡◌};

use crate::counters::Counters;
use crate::transfer::{Count, Transfer};
use crate::turns::{make, run, start};
use be_hall::{Busy, CloseFault};
use std::test::Fail;

#[test]
fn one_pass_waits_for_the_other(rt: HostRuntime) -> Result<(), Fail> {
    let rules = Counters {
        places: 2,
        rounds: 1,
    };
    let Ok((hall, mut first)) = start(rt.alloc(), rules, 5, 5) else {
        panic!(rt; "no memory")
    };
    let Ok(mut second) = hall.split(&mut first) else {
        panic!(rt; "no memory")
    };
    assert!(rt; hall.rules().places == 2);
    hall.take(&rt, &mut first, &[0]);
    let Err(busy) = hall.try_take(&mut second, &[0]) else {
        panic!(rt; "place 0 is the first one's")
    };
    assert!(rt; busy == Busy { place: 0 });
    let Ok(()) = hall.try_take(&mut second, &[1]) else {
        panic!(rt; "place 1 is free")
    };
    hall.give(&mut first);
    hall.give(&mut second);
    let Ok(()) = hall.try_take(&mut second, &[0, 1]) else {
        panic!(rt; "both places are free")
    };
    let transfer = Transfer {
        source: 0,
        target: 1,
    };
    assert!(rt; make(&hall, &mut second, &transfer));
    hall.give(&mut second);
    hall.take(&rt, &mut first, &[0, 1]);
    let Err(
        CloseFault::Unjoined {
            clock,
            gathered,
            hall,
            pass,
        },
    ) = hall.close(first)
    else {
        panic!(rt; "the second pass isn't joined")
    };
    assert!(rt; clock == 1 && gathered == 0);
    let mut pass = pass;
    hall.join(&mut pass, second);
    let Ok(closed) = hall.close(pass) else {
        panic!(rt; "all passes are joined")
    };
    assert!(rt; closed.history.len() == 1 && closed.history[0] == transfer);
    assert!(rt; closed.parts.len() == 2);
    assert!(rt; closed.parts[0].count().units == 4 && closed.parts[1].count().units == 6);
    Ok(())
}

fn made(counts: &mut Vec<Count>, transfer: Transfer) -> bool {
    let source = transfer.source as usize;
    let target = transfer.target as usize;
    if source == target || source >= counts.len() || target >= counts.len() {
        return false;
    }
    let from = counts[source];
    let to = counts[target];
    if from.units == 0 || from.left == 0 || to.units == u64::MAX {
        return false;
    }
    counts[source] = Count {
        units: from.units - 1,
        left: from.left - 1,
    };
    counts[target] = Count {
        units: to.units + 1,
        left: to.left,
    };
    true
}

fn pair(source: u32, target: u32) -> Transfer
    ensures { (result.source ≡ source) × (result.target ≡ target) }
{
    Transfer { source, target }
}

#[test]
fn four_threads_share_two_counters(rt: HostRuntime) -> Result<(), Fail> {
    let rules = Counters {
        places: 2,
        rounds: 10,
    };
    let transfers = [pair(0, 1), pair(1, 0), pair(0, 1), pair(1, 0)];
    let Ok(closed) = run(&rt, rt.alloc(), rules, &transfers, 25_000) else {
        panic!(rt; "no memory")
    };
    assert!(rt; closed.history.len() == 100_000);
    let mut counts = Vec::new(rt.alloc());
    for _ in 0..2 {
        counts.push(Count {
            units: 1 << 30,
            left: 1 << 30,
        })?;
    }
    for transfer in &closed.history {
        assert!(rt; made(&mut counts, *transfer));
    }
    for i in 0..2 {
        assert!(rt; i < counts.len() && i < closed.parts.len());
        assert!(rt; counts[i] == closed.parts[i].count());
    }
    Ok(())
}

#[test]
fn four_threads_have_counters_of_their_own(rt: HostRuntime) -> Result<(), Fail> {
    let rules = Counters {
        places: 64,
        rounds: 10,
    };
    let transfers = [pair(0, 15), pair(31, 16), pair(32, 47), pair(63, 48)];
    let Ok(closed) = run(&rt, rt.alloc(), rules, &transfers, 25_000) else {
        panic!(rt; "no memory")
    };
    assert!(rt; closed.history.len() == 100_000);
    let mut counts = Vec::new(rt.alloc());
    for _ in 0..64 {
        counts.push(Count {
            units: 1 << 30,
            left: 1 << 30,
        })?;
    }
    for transfer in &closed.history {
        assert!(rt; made(&mut counts, *transfer));
    }
    for i in 0..64 {
        assert!(rt; i < counts.len() && i < closed.parts.len());
        assert!(rt; counts[i] == closed.parts[i].count());
    }
    Ok(())
}

use be_outside::{Gate, Spot};
use run_gates::{HoldsBefore, HoldsInside, Visits};
use std::test::Fail;
use std::thread;

// How often the activity was at each spot.
fn visits_of(visits: &Visits, who: u32) -> [u64; 3] {
    [
        visits.count(Spot::Before, who),
        visits.count(Spot::Inside, who),
        visits.count(Spot::After, who),
    ]
}

// So many turns of an activity, each with an entry.
fn turn<G: Gate + Sync>(gate: &G, who: u32, turns: u32) {
    for _turn in 0..turns {
        gate.at(Spot::Before, who);
        gate.at(Spot::Inside, who);
        gate.at(Spot::After, who);
    }
}

#[test]
fn two_meet_before(rt: HostRuntime) -> Result<(), Fail> {
    let gate = HoldsBefore::new(rt.alloc(), 2)?;
    thread::join(&rt, || turn(&gate, 0, 1), || turn(&gate, 1, 2));
    assert!(rt; gate.has_met());
    for (who, turns) in [(0, 1), (1, 2), (2, 0)] {
        assert_eq!(rt; visits_of(gate.visits(), who), [turns; 3], "of {who}");
    }
    Ok(())
}

#[test]
fn two_meet_inside(rt: HostRuntime) -> Result<(), Fail> {
    let gate = HoldsInside::new(rt.alloc(), 3, (0, 1))?;
    turn(&gate, 2, 9);
    assert!(rt; !gate.has_met());
    thread::join(&rt, || turn(&gate, 0, 3), || turn(&gate, 1, 4));
    assert!(rt; gate.has_met());
    for (who, turns) in [(0, 3), (1, 4), (2, 9), (3, 0)] {
        assert_eq!(rt; visits_of(gate.visits(), who), [turns; 3], "of {who}");
    }
    Ok(())
}

#[test]
fn one_alone_gives_up(rt: HostRuntime) -> Result<(), Fail> {
    let gate = HoldsBefore::new(rt.alloc(), 1)?;
    turn(&gate, 0, 1);
    assert!(rt; !gate.has_met());
    turn(&gate, 0, 1);
    assert!(rt; !gate.has_met(), "it gave up once");
    assert_eq!(rt; gate.visits().count(Spot::After, 0), 2);
    Ok(())
}

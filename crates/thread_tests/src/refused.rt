use crate::runs::{Driver, Size, asks_at_each_spot, check_history, run};
use run_gates::{HoldsBefore, HoldsInside, OneLock};
use std::test::Fail;

const SMALL: Size = Size {
    producers: 2,
    consumers: 2,
    each: 3,
};

#[test]
fn a_run_that_asks_no_gate_is_refused(rt: HostRuntime) -> Result<(), Fail> {
    let before = HoldsBefore::new(rt.alloc(), SMALL.activities())?;
    let inside = HoldsInside::new(rt.alloc(), SMALL.activities(), (0, 1))?;
    for visits in [before.visits(), inside.visits()] {
        let Some(made) = run(&rt, rt.alloc(), Driver::Serial, SMALL, &before)? else {
            panic!(rt; "there is a consumer")
        };
        check_history(&rt, rt.alloc(), SMALL, &made)?;
        assert!(rt; !asks_at_each_spot(&made, visits));
    }
    assert!(rt; !before.has_met() && !inside.has_met());
    Ok(())
}

// Its workers ask at each spot, but nobody else comes while one of them is held.
#[test]
fn a_run_on_one_thread_is_refused(rt: HostRuntime) -> Result<(), Fail> {
    let before = HoldsBefore::new(rt.alloc(), SMALL.activities())?;
    let Some(made) = run(&rt, rt.alloc(), Driver::OneThread, SMALL, &before)? else {
        panic!(rt; "there is a consumer")
    };
    check_history(&rt, rt.alloc(), SMALL, &made)?;
    assert!(rt; asks_at_each_spot(&made, before.visits()));
    assert!(rt; !before.has_met(), "nobody came to Before");
    let inside = HoldsInside::new(rt.alloc(), SMALL.activities(), (0, 1))?;
    let Some(made) = run(&rt, rt.alloc(), Driver::OneThread, SMALL, &inside)? else {
        panic!(rt; "there is a consumer")
    };
    check_history(&rt, rt.alloc(), SMALL, &made)?;
    assert!(rt; asks_at_each_spot(&made, inside.visits()));
    assert!(rt; !inside.has_met(), "nobody came to Inside");
    Ok(())
}

// The one that is held has the lock, so nobody else comes.
#[test]
fn a_run_under_one_lock_is_refused(rt: HostRuntime) -> Result<(), Fail> {
    let before = HoldsBefore::new(rt.alloc(), SMALL.activities())?;
    let lock = OneLock::new(&rt, &before);
    let Some(made) = run(&rt, rt.alloc(), Driver::Threads, SMALL, &lock)? else {
        panic!(rt; "there is a consumer")
    };
    check_history(&rt, rt.alloc(), SMALL, &made)?;
    assert!(rt; asks_at_each_spot(&made, before.visits()));
    assert!(rt; !before.has_met(), "nobody came to Before");
    let inside = HoldsInside::new(rt.alloc(), SMALL.activities(), (0, 1))?;
    let lock = OneLock::new(&rt, &inside);
    let Some(made) = run(&rt, rt.alloc(), Driver::Threads, SMALL, &lock)? else {
        panic!(rt; "there is a consumer")
    };
    check_history(&rt, rt.alloc(), SMALL, &made)?;
    assert!(rt; asks_at_each_spot(&made, inside.visits()));
    assert!(rt; !inside.has_met(), "nobody came to Inside");
    Ok(())
}

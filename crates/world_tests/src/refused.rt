use crate::runs::{Driver, asks_at_each_spot, run, world_of};
use crate::scripts::{APART, FILLED, TWINS_APART};
use be_turns::Turns;
use run_gates::{HoldsBefore, HoldsInside, OneLock};
use std::test::Fail;

#[test]
fn a_run_that_asks_no_gate_is_refused(rt: HostRuntime) -> Result<(), Fail> {
    let Some(world) = world_of(rt.alloc(), FILLED)? else {
        panic!(rt; "it is a script")
    };
    let before = HoldsBefore::new(rt.alloc(), world.activities())?;
    let made = run(&rt, rt.alloc(), Driver::Alone, world, &before)?;
    assert!(rt; !before.has_met());
    assert!(rt; !asks_at_each_spot(&made, before.visits()));
    Ok(())
}

// Its workers ask at each spot, but nobody else comes while one of them is held.
#[test]
fn a_run_on_one_thread_is_refused(rt: HostRuntime) -> Result<(), Fail> {
    let Some(world) = world_of(rt.alloc(), FILLED)? else {
        panic!(rt; "it is a script")
    };
    let before = HoldsBefore::new(rt.alloc(), world.activities())?;
    let made = run(&rt, rt.alloc(), Driver::OneThread, world, &before)?;
    assert!(rt; asks_at_each_spot(&made, before.visits()));
    assert!(rt; !before.has_met(), "nobody came to Before");
    let Some(world) = world_of(rt.alloc(), APART)? else {
        panic!(rt; "it is a script")
    };
    let inside = HoldsInside::new(rt.alloc(), world.activities(), TWINS_APART)?;
    let made = run(&rt, rt.alloc(), Driver::OneThread, world, &inside)?;
    assert!(rt; asks_at_each_spot(&made, inside.visits()));
    assert!(rt; !inside.has_met(), "nobody came to Inside");
    Ok(())
}

// The one that is held has the lock, so nobody else comes.
#[test]
fn a_run_under_one_lock_is_refused(rt: HostRuntime) -> Result<(), Fail> {
    let Some(world) = world_of(rt.alloc(), APART)? else {
        panic!(rt; "it is a script")
    };
    let inside = HoldsInside::new(rt.alloc(), world.activities(), TWINS_APART)?;
    let lock = OneLock::new(&rt, &inside);
    let made = run(&rt, rt.alloc(), Driver::Threads, world, &lock)?;
    assert!(rt; asks_at_each_spot(&made, inside.visits()));
    assert!(rt; !inside.has_met(), "nobody came to Inside");
    Ok(())
}

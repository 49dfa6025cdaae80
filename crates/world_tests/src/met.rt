use crate::runs::{Driver, asks_at_each_spot, run, screen_of, world_of};
use crate::scripts::{APART, FILLED, FILLED_SCREEN, TWINS_APART};
use be_turns::Turns;
use run_gates::{HoldsBefore, HoldsInside};
use std::test::Fail;

// How often each run is made: the order of its entries is another one each time.
const TIMES: u32 = 10;

#[test]
fn two_meet_before(rt: HostRuntime) -> Result<(), Fail> {
    for time in 0..TIMES {
        let Some(world) = world_of(rt.alloc(), FILLED)? else {
            panic!(rt; "it is a script")
        };
        let gate = HoldsBefore::new(rt.alloc(), world.activities())?;
        let made = run(&rt, rt.alloc(), Driver::Threads, world, &gate)?;
        assert!(rt; gate.has_met(), "{time}");
        assert!(rt; asks_at_each_spot(&made, gate.visits()), "{time}");
        let screen = screen_of(rt.alloc(), &made)?;
        assert_eq!(rt; screen.as_slice(), FILLED_SCREEN, "{time}");
    }
    Ok(())
}

#[test]
fn two_twins_meet_inside(rt: HostRuntime) -> Result<(), Fail> {
    for time in 0..TIMES {
        let Some(world) = world_of(rt.alloc(), APART)? else {
            panic!(rt; "it is a script")
        };
        let gate = HoldsInside::new(rt.alloc(), world.activities(), TWINS_APART)?;
        let made = run(&rt, rt.alloc(), Driver::Threads, world, &gate)?;
        assert!(rt; gate.has_met(), "{time}");
        assert!(rt; asks_at_each_spot(&made, gate.visits()), "{time}");
    }
    Ok(())
}

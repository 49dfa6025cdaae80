use crate::runs::{Driver, Size, asks_at_each_spot, check_history, run};
use run_gates::{HoldsBefore, HoldsInside};
use std::test::Fail;

// With the closing one there are 3, 20 and 81 activities.
const SIZES: [Size; 4] = [
    Size {
        producers: 1,
        consumers: 1,
        each: 300,
    },
    Size {
        producers: 13,
        consumers: 6,
        each: 40,
    },
    Size {
        producers: 60,
        consumers: 20,
        each: 10,
    },
    Size {
        producers: 2,
        consumers: 3,
        each: 0,
    },
];

// How often each run is made: the order of its steps is another one each time.
const TIMES: u32 = 10;

#[test]
fn two_meet_before_and_each_run_is_replayed(rt: HostRuntime) -> Result<(), Fail> {
    for size in SIZES {
        for _time in 0..TIMES {
            let gate = HoldsBefore::new(rt.alloc(), size.activities())?;
            let Some(made) = run(&rt, rt.alloc(), Driver::Threads, size, &gate)? else {
                panic!(rt; "there is a consumer")
            };
            check_history(&rt, rt.alloc(), size, &made)?;
            assert!(rt; gate.has_met(), "{size:?}");
            assert!(rt; asks_at_each_spot(&made, gate.visits()), "{size:?}");
        }
    }
    Ok(())
}

// Two producers whose units go to different consumers have no part in common.
#[test]
fn two_that_share_no_part_meet_inside(rt: HostRuntime) -> Result<(), Fail> {
    for (producers, consumers) in [(2, 2), (13, 6)] {
        let size = Size {
            producers,
            consumers,
            each: 3,
        };
        for _time in 0..TIMES {
            let gate = HoldsInside::new(rt.alloc(), size.activities(), (0, 1))?;
            let Some(made) = run(&rt, rt.alloc(), Driver::Threads, size, &gate)? else {
                panic!(rt; "there is a consumer")
            };
            check_history(&rt, rt.alloc(), size, &made)?;
            assert!(rt; gate.has_met(), "{size:?}");
            assert!(rt; asks_at_each_spot(&made, gate.visits()), "{size:?}");
        }
    }
    Ok(())
}

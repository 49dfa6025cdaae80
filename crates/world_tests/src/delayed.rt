use crate::runs::{Driver, asks_at_each_spot, run, screen_of, world_of};
use crate::scripts::{MOVED, MOVED_SCREEN};
use be_turns::Turns;
use run_gates::DelaysBefore;
use std::test::Fail;

/// An application, a looper and its twin, the input and the closing activity.
const ACTIVITIES: u32 = 5;

// Whoever comes late, and however late, the screen is the same.
#[test]
fn a_delay_changes_no_pixel(rt: HostRuntime) -> Result<(), Fail> {
    for who in 0..ACTIVITIES {
        for visit in 1..6u64 {
            let Some(world) = world_of(rt.alloc(), MOVED)? else {
                panic!(rt; "it is a script")
            };
            assert_eq!(rt; world.activities(), ACTIVITIES);
            let gate = DelaysBefore::new(rt.alloc(), ACTIVITIES, who, visit)?;
            let made = run(&rt, rt.alloc(), Driver::Threads, world, &gate)?;
            assert!(rt; asks_at_each_spot(&made, gate.visits()), "{who} at {visit}");
            let screen = screen_of(rt.alloc(), &made)?;
            assert_eq!(rt; screen.as_slice(), MOVED_SCREEN, "{who} at {visit}");
        }
    }
    Ok(())
}

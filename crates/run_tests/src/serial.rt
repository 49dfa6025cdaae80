use crate::replay::Tally;
use be_geom::NoMemory;
use be_serial::{Ran, run_serial};
use small_world::{Step, World};
use std::alloc::Global;
use std::test::Fail;

// Producers, consumers, and units for each producer: with the closing one there are 3, 20 and 81.
const SIZES: [(u16, u16, u32); 4] = [(1, 1, 9), (13, 6, 4), (60, 20, 2), (2, 3, 0)];

const SEEDS: [u32; 5] = [0, 1, 7, 65_536, u32::MAX];

fn run(
    alloc: Global,
    producers: u16,
    consumers: u16,
    each: u32,
    seed: u32,
) -> Result<Option<Ran<World>>, NoMemory> {
    if consumers == 0 {
        return Ok(None);
    }
    let world = World {
        producers,
        consumers,
    };
    let parts = world.opening(alloc, each, 0)?;
    Ok(Some(run_serial(alloc, world, parts, 1 << 62, seed)?))
}

#[test]
fn a_run_is_replayed(rt: HostRuntime) -> Result<(), Fail> {
    for (producers, consumers, each) in SIZES {
        for seed in SEEDS {
            let Some(ran) = run(rt.alloc(), producers, consumers, each, seed)? else {
                panic!(rt; "there is a consumer")
            };
            let mut tally = Tally::new(rt.alloc(), producers, consumers, each, seed)?;
            for (number, step) in ran.history.iter().enumerate() {
                let able = tally.able(rt.alloc())?;
                assert!(rt;
                    able.len() > 0,
                    "nobody may step at {number} with seed {seed}"
                );
                let who = tally.pick(able.as_slice());
                assert_eq!(rt;
                    tally.step(who),
                    Some(*step),
                    "at {number} with seed {seed}"
                );
            }
            assert_eq!(rt; tally.able(rt.alloc())?.len(), 0, "the run is over");
            let closing = ran
                .history
                .iter()
                .filter(|step| **step == Step::Close)
                .count();
            assert_eq!(rt; closing, 1, "with seed {seed}");
            assert_eq!(rt;
                ran.history.last().copied(),
                Some(Step::Close),
                "with seed {seed}"
            );
            let made = 2 * u64::from(producers) * u64::from(each) + 1;
            assert_eq!(rt; ran.history.len() as u64, made, "with seed {seed}");
            for (place, units) in tally.units().iter().enumerate() {
                let count = ran.parts.get(place).map(|counter| counter.count());
                let left = count.map(|count| (count.left, count.units));
                assert_eq!(rt; left, Some((*units, 0)), "at {place} with seed {seed}");
            }
        }
    }
    Ok(())
}

// Two producers with two units each, one consumer and the closing activity. The activities are
// those that the generator's numbers pick by hand: with the seed 7 it gives 1059165278, 2052263231,
// 1946856753, 585718673, 572045545, 297257219, 865189864, 691615764 and 2107371739, and the lists
// are 0 1, 0 1 2, 0 1 2, 0 1 2, 0 1, 0 2, 0, 2 and 3.
#[test]
fn the_seed_picks_who_steps(rt: HostRuntime) -> Result<(), Fail> {
    for (seed, actors) in [
        (0, [0, 0, 1, 1, 2, 2, 2, 2, 3]),
        (3, [1, 1, 2, 0, 0, 2, 2, 2, 3]),
        (7, [0, 2, 1, 2, 1, 2, 0, 2, 3]),
        (9, [1, 0, 2, 2, 1, 2, 0, 2, 3]),
        (u32::MAX, [1, 0, 1, 2, 0, 2, 2, 2, 3]),
    ] {
        let Some(ran) = run(rt.alloc(), 2, 1, 2, seed)? else {
            panic!(rt; "there is a consumer")
        };
        let made = ran.history.iter().map(|step| actor(*step));
        let made = made.collect::<Vec<u32>>(rt.alloc())?;
        assert_eq!(rt; made.as_slice(), actors.as_slice(), "with seed {seed}");
    }
    Ok(())
}

// Who makes the step, where the closing activity is the fourth.
fn actor(step: Step) -> u32 {
    match step {
        Step::Give(who) => who,
        Step::Use(who) => who,
        Step::Close => 3,
    }
}

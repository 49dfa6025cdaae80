//! The words on the command line.
use crate::runs::{Driver, Orders};
use small_world::World;
use std::alloc::Global;

// More have no bells.
const MOST_ACTIVITIES: u32 = 128;

/// What the words ask for. None where they are others.
pub fn read_words(words: &[String<Global>]) -> Option<Orders> {
    let [driver, producers, consumers, each, stored, work, runs] = words else {
        return None;
    };
    let driver = match driver.as_str() {
        "threads" => Driver::Threads,
        "one" => Driver::One,
        _ => return None,
    };
    Some(Orders {
        driver,
        world: world_of(
            producers.parse::<u16>().ok()?,
            consumers.parse::<u16>().ok()?,
        )?,
        each: each.parse::<u32>().ok()?,
        stored: stored.parse::<u32>().ok()?,
        work: work.parse::<u32>().ok()?,
        runs: runs.parse::<u32>().ok()?,
    })
}

fn world_of(producers: u16, consumers: u16) -> Option<World> {
    if consumers == 0 {
        return None;
    }
    let world = World {
        producers,
        consumers,
    };
    if world.closing() >= MOST_ACTIVITIES {
        return None;
    }
    Some(world)
}

//! Runs of the small world, one after the other.
ghost use Rattle.std.specs.Prelude.{◌<◌};

use be_geom::NoMemory;
use be_serial::run_serial;
use small_world::World;
use std::alloc::Global;

/// How many steps so many runs make, each from the start.
pub fn run_rounds(
    alloc: Global,
    producers: u16,
    consumers: u16,
    each: u32,
    seed: u32,
    rounds: u32,
) -> Result<u64, NoMemory>
    requires { 0 < consumers }
{
    let world = World {
        producers,
        consumers,
    };
    let mut made = 0u64;
    for _round in 0..rounds {
        let parts = world.opening(alloc, each, 0)?;
        let ran = run_serial(alloc, world, parts, 1 << 62, seed)?;
        made = made.saturating_add(ran.history.len() as u64);
    }
    Ok(made)
}

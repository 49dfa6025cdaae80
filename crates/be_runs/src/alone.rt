ghost use Rattle.std.specs.Prelude.{◌≡◌, IfOk};
ghost use Rattle.be_machine.specs.Schedule.{IsScheduled};
ghost use Rattle.be_runs.specs.Runs.{Leaves};

use crate::finished::Finished;
use be_geom::NoMemory;
use be_noted::Noting;
use be_serial::run_serial;
use be_world::World;
use std::alloc::Global;

// No script has more work.
const MOST_ENTRIES: u64 = 262_144;

/// Runs a script on this thread to its end. The seed chooses before each entry which activity makes
/// it, of those that have a legal one; the seed 0 chooses the first in order of number.
pub fn run_alone(alloc: Global, world: World, seed: u32) -> Result<Finished, NoMemory>
    ensures leaves { IfOk result (Leaves world) }
    ensures scheduled { IfOk result (λ run. IsScheduled world seed run.history.items) }
{
    let noting = Noting::new(world);
    let parts = noting.opening()?;
    let ran = run_serial(alloc, noting, parts, MOST_ENTRIES, seed)?;
    Ok(Finished {
        world: ran.rules.into_world(),
        history: ran.history,
        parts: ran.parts,
    })
}

ghost use Rattle.std.specs.Prelude.{◌≡◌, IfOk, IfErr};
ghost use Rattle.be_check.specs.Checking.{IsFaultOf};
ghost use Rattle.be_runs.specs.Runs.{Leaves};

use crate::fault::CheckFault;
use crate::stepping::{ends_in_stop, note_if_legal};
use be_hall::Held;
use be_machine::Entry;
use be_noted::Noting;
use be_runs::Finished;
use be_world::World;

/// Whether a history is one of a finished run by these rules. It comes back with the parts that it
/// leaves.
pub fn check(world: World, history: Vec<Entry>) -> Result<Finished, CheckFault>
    ensures leaves { IfOk result (Leaves world) }
    ensures history { IfOk result (λ run. run.history.items ≡ history.items) }
    ensures fault { IfErr result (IsFaultOf world history.items) }
{
    let noting = Noting::new(world);
    let opening = noting.opening()?;
    let mut held = Held::whole(opening);
    let entries = history.as_slice();
    let mut made = 0;
    for entry in entries {
        let legal = note_if_legal(&noting, &mut held, entry, made)?;
        if !legal {
            return Err(CheckFault::Illegal(made + 1));
        }
        made += 1;
    }
    if !ends_in_stop(entries) {
        return Err(CheckFault::Illegal(made + 1));
    }
    Ok(Finished {
        world: noting.into_world(),
        history,
        parts: held.into_parts(),
    })
}

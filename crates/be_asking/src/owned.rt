ghost use Rattle.std.specs.Prelude.{IfOk, IfErr};
ghost use Rattle.be_asking.specs.Acts.{OwnsWindow};
ghost use Rattle.be_asking.specs.Finding.{IsMissing, IsReachable};
ghost use Rattle.be_asking.specs.Wants.{runner_in};
ghost use Rattle.be_machine.specs.Touched.{own_part};
ghost use Rattle.be_script.specs.Script.{declared_by};

use crate::activity::Runner;
use crate::finding::find_cell;
use crate::programs::{app_steps, lock_at};
use be_hall::Held;
use be_parts::Part;
use be_script::Script;

/// The window whose looper a runner owns: of an application the one that it has locked. The place
/// of its cell, where that isn't in hand.
pub fn owned_window(script: &Script, held: &Held<Part>, runner: Runner) -> Result<Option<u16>, u32>
    requires { IsReachable (declared_by script.now) held.now.parts (own_part (runner_in runner)) }
    ensures owns { IfOk result (OwnsWindow (declared_by script.now) held.now.parts runner) }
    ensures missing { IfErr result (IsMissing (declared_by script.now) held.now.parts
        (own_part (runner_in runner))) }
{
    match runner {
        Runner::Looper(w) => Ok(Some(w)),
        Runner::App(m) => {
            let cell = find_cell(script, held, m)?;
            Ok(lock_at(app_steps(script, m), cell.place().step))
        }
    }
}

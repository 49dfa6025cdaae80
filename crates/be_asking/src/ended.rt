ghost use Rattle.std.specs.Prelude.{IfOk, IfErr};
ghost use Rattle.be_asking.specs.Finding.{IsInHand, IsMissing, IsReachable};
ghost use Rattle.be_asking.specs.Stopping.{Tells};
ghost use Rattle.be_machine.specs.Program.{has_ended};
ghost use Rattle.be_machine.specs.Touched as part;
ghost use Rattle.be_script.specs.Script.{declared_by};

use crate::finding::find_cell;
use crate::programs::{app_steps, is_past};
use be_hall::Held;
use be_parts::Part;
use be_script::Script;

/// Whether an application is at its end. The error is the place of its part, where that isn't in
/// hand.
pub(crate) fn has_ended(script: &Script, held: &Held<Part>, app: u16) -> Result<bool, u32>
    requires { IsReachable (declared_by script.now) held.now.parts (part.cell app) }
    ensures told { IfOk result (Tells (declared_by script.now) held.now.parts
        (λ s. has_ended (declared_by script.now) s app)) }
    ensures there { IfOk result (λ _. IsInHand (declared_by script.now) held.now.parts
        (part.cell app)) }
    ensures missing { IfErr result (IsMissing (declared_by script.now) held.now.parts
        (part.cell app)) }
{
    let cell = find_cell(script, held, app)?;
    let at = cell.place();
    Ok(is_past(app_steps(script, app), at.step))
}

//! Who waits for the reply to the letter in a looper's hand.
ghost use Rattle.std.specs.Prelude.{ℕ, Some};
ghost use Rattle.be_asking.specs.declared.activity.Runner.TheVariants as by;
ghost use Rattle.be_machine.specs.Touched as part;
ghost use Rattle.be_script.specs.Limits.{IsWithinLimits};
ghost use Rattle.be_script.specs.Script.{Declared, declared_by};
ghost use Rattle.be_steps.specs.Going.{HasOwn};
ghost use Rattle.be_steps.specs.There.{IsThere};
ghost use Rattle.be_steps.specs.Waiters.{HasWaiter, IsTold, IsWaiter};

use crate::there::cell_is_there;
use be_asking::{cell_place, looper_place};
use be_hall::Held;
use be_message::Message;
use be_parts::{Part, cell_to_change, looper_at};
use be_port::Duty;
use be_script::Script;

/// The application that waits, whose part is stored as one then.
pub(crate) fn who_waits(script: &Script, held: &Held<Part>, w: u16) -> Option<u16>
    requires limits { IsWithinLimits (declared_by script.now) }
    requires looper { HasOwn (declared_by script.now) held.now.parts (by.Looper w) }
    requires cells { (m : ℕ) → IsWaiter (declared_by script.now) held.now.parts w (Some m)
        → IsThere (declared_by script.now) held.now.parts (part.cell m) }
    ensures waits { IsWaiter (declared_by script.now) held.now.parts w result }
    ensures there { HasWaiter (declared_by script.now) held.now.parts result }
{
    let looper = looper_at(held, looper_place(script, w));
    let letter = looper.letter()?;
    match letter.duty {
        Duty::Owed(m) => {
            cell_is_there(script, held, m);
            Some(m)
        }
        Duty::Done | Duty::Free => None,
    }
}

/// Who waits, if somebody does, is told this. An application's part lies at the same place in each
/// script.
pub(crate) fn tell(held: &mut Held<Part>, waits: Option<u16>, message: Message)
    requires { (d : Declared) × HasWaiter d held.old.parts waits }
    ensures { (d : Declared) → IsTold d message waits held.old held.new }
{
    if let Some(m) = waits {
        cell_to_change(held, cell_place(m)).tell(message);
    }
}

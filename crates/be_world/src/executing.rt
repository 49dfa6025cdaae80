//! A twin executes a command.
ghost use Rattle.std.specs.Prelude.{◌≡◌};
ghost use Rattle.be_asking.specs.declared.activity.Activity.TheVariants as who;
ghost use Rattle.be_asking.specs.declared.want.Want.TheVariants as want;
ghost use Rattle.be_script.specs.Script.{declared_by};
ghost use Rattle.be_steps.specs.Steps.{IsAllowed, IsDone};
ghost use Rattle.be_world.specs.Suits.{IsSuited};

use crate::work::Work;
use be_bitmap::Bitmap;
use be_changes::{change, refuse};
use be_hall::Held;
use be_parts::Part;
use be_script::Script;
use be_steps::execute;

/// The twin of window `w` executes the oldest command, a change of the window as it was planned.
pub(crate) fn run(script: &Script, bitmaps: &[Bitmap], held: &mut Held<Part>, w: u16, made: Work)
    requires allowed { IsAllowed (declared_by script.now) held.old.parts (who.Twin w)
        (want.Executes w) }
    requires suits { IsSuited (declared_by script.now) held.old.parts (who.Twin w)
        (want.Executes w) made }
    requires bitmaps { bitmaps.now ≡ (declared_by script.now).pictures }
    ensures { IsDone (declared_by script.now) (who.Twin w) held.old held.new }
{
    match made {
        Work::Nothing => execute(script, held, w, bitmaps),
        Work::Change(plan, places) => change(script, held, w, plan, &places),
        Work::Refused => refuse(script, held, w),
        Work::Letter(_) | Work::Reply(_) | Work::Taken(..) => unreachable!(),
        Work::Command(_) | Work::Survey(_) | Work::Event(_) => unreachable!(),
    }
}

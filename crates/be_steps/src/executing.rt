//! Twins execute commands.
ghost use Rattle.std.specs.Prelude.{◌≡◌};
ghost use Rattle.be_asking.specs.declared.activity.Activity.TheVariants as who;
ghost use Rattle.be_asking.specs.declared.want.Want.TheVariants as want;
ghost use Rattle.be_script.specs.Script.{declared_by};
ghost use Rattle.be_steps.specs.Executing.{HasPlainFront};
ghost use Rattle.be_steps.specs.Steps.{IsAllowed, IsDone};

use crate::left::left_at;
use crate::shown::pane_is_there;
use be_asking::{Activity, link_place, pane_place};
use be_bitmap::Bitmap;
use be_hall::Held;
use be_machine::laws::waiting_commands_are_within_limits;
use be_parts::{Part, link_to_change, pane_to_change};
use be_script::Script;
use std::snapshot::Snapshot;

/// The twin of window `w` executes the oldest command, which is no change of the window: it leaves
/// the link, and the pane is drawn. The bitmaps are the script's.
pub fn execute(script: &Script, held: &mut Held<Part>, w: u16, bitmaps: &[Bitmap])
    requires allowed { IsAllowed (declared_by script.now) held.old.parts (who.Twin w)
        (want.Executes w) }
    requires front { HasPlainFront (declared_by script.now) held.old.parts w }
    requires bitmaps { bitmaps.now ≡ (declared_by script.now).pictures }
    ensures { IsDone (declared_by script.now) (who.Twin w) held.old held.new }
{
    pane_is_there(script, held, w);
    waiting_commands_are_within_limits();
    let before = Snapshot::of(held);
    let link = link_place(script, w);
    let pane = pane_place(script, w);
    let drawn = left_at(script, &before, Activity::Twin(w), pane);
    let (_, command) = link_to_change(held, link).pop().unwrap();
    pane_to_change(held, pane).execute(command, bitmaps, drawn);
}

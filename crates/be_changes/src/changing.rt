//! A twin changes its window.
ghost use Rattle.std.specs.Prelude.{◌≡◌};
ghost use Rattle.be_asking.specs.declared.activity.Activity.TheVariants as who;
ghost use Rattle.be_asking.specs.declared.want.Want.TheVariants as want;
ghost use Rattle.be_changes.specs.Planned.{IsNextChange, IsPlannedIn, IsRefusedIn};
ghost use Rattle.be_script.specs.Script.{declared_by};
ghost use Rattle.be_steps.specs.Steps.{IsAllowed, IsDone};

use crate::panes::change_panes;
use crate::ports::close_port;
use be_asking::{Activity, desk_place, link_place};
use be_command::Command;
use be_desk::Plan;
use be_hall::Held;
use be_parts::{Part, desk_to_change, link_to_change};
use be_script::Script;
use std::snapshot::Snapshot;

/// The twin of window `w` executes the oldest command, a change of the window that was planned with
/// the panes at these places: it leaves the link, the panes and then the desk are changed. Where
/// the window is closed, its port is closed too.
pub fn change(script: &Script, held: &mut Held<Part>, w: u16, mut plan: Plan, places: &[u32])
    requires allowed { IsAllowed (declared_by script.now) held.old.parts (who.Twin w)
        (want.Executes w) }
    requires next { IsNextChange (declared_by script.now) held.old.parts w plan.change }
    requires window { plan.window ≡ w }
    requires planned { IsPlannedIn (declared_by script.now) held.old.parts plan places.now }
    ensures { IsDone (declared_by script.now) (who.Twin w) held.old held.new }
{
    let who = Activity::Twin(w);
    let before = Snapshot::of(held);
    let link = link_place(script, w);
    let (_, command) = link_to_change(held, link).pop().unwrap();
    change_panes(script, held, &before, who, &mut plan, places);
    let Command::Change(change) = command else {
        unreachable!()
    };
    close_port(script, held, &before, who, w, &change);
    desk_to_change(held, desk_place()).change(plan);
}

/// The twin of window `w` executes the oldest command, a change of the window that the desk
/// refuses: it leaves the link, and nothing else happens.
pub fn refuse(script: &Script, held: &mut Held<Part>, w: u16)
    requires allowed { IsAllowed (declared_by script.now) held.old.parts (who.Twin w)
        (want.Executes w) }
    requires refused { IsRefusedIn (declared_by script.now) held.old.parts w }
    ensures { IsDone (declared_by script.now) (who.Twin w) held.old held.new }
{
    let _command = link_to_change(held, link_place(script, w)).pop();
}

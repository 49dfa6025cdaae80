//! An event of mouse or key happens.
ghost use Rattle.std.specs.Prelude.{◌≡◌};
ghost use Rattle.std.specs.Borrow.{Bor};
ghost use Rattle.be_asking.specs.declared.activity.Activity.TheVariants as who;
ghost use Rattle.be_asking.specs.declared.want.Want.TheVariants as want;
ghost use Rattle.be_asking.specs.declared.want.Want.{Want};
ghost use Rattle.be_changes.specs.Activations.{HasActivated, IsToActivate};
ghost use Rattle.be_changes.specs.Events.{IsDeliveredIn};
ghost use Rattle.be_script.specs.Script.{declared_by};
ghost use Rattle.be_script.specs.declared.InputLine.{InputLine};
ghost use Rattle.be_steps.specs.Steps.{IsAllowed, IsDone};

use crate::panes::change_panes;
use crate::posts::post_to;
use be_asking::{Activity, desk_place, input_place};
use be_desk::Plan;
use be_flat::no_spelling_begins_another;
use be_hall::Held;
use be_parts::{Part, desk_to_change, input_to_change};
use be_port::Letter;
use be_script::Script;
use be_steps::input_is_there;
use std::snapshot::Snapshot;

/// A letter, and the window to whose port it is posted.
#[derive(Drop)]
pub struct Addressed {
    pub window: u16,
    pub letter: Letter,
}

/// A window that an event activates, as it was planned with the panes at these places.
#[derive(Drop)]
pub struct Activation {
    pub plan: Plan,
    pub places: Vec<u32>,
}

/// What an event delivers, all of it made ready.
#[derive(Drop)]
pub struct Delivered {
    pub first: Option<Addressed>,
    pub second: Option<Addressed>,
    pub activation: Option<Activation>,
    /// The window and the view that are remembered afterwards.
    pub under: Option<(u16, u16)>,
}

/// An event of mouse or key happens: it counts as used, its messages are posted, a window may be
/// activated, and the view under the pointer is remembered.
pub fn deliver(script: &Script, held: &mut Held<Part>, delivered: Delivered)
    requires { (line : Bor InputLine)
        × IsAllowed (declared_by script.now) held.old.parts who.Input (want.Uses line)
        × IsDeliveredIn (declared_by script.now) held.old.parts line.now delivered }
    ensures { IsDone (declared_by script.now) who.Input held.old held.new }
{
    let Delivered {
        first,
        second,
        activation,
        under,
    } = delivered;
    no_spelling_begins_another();
    input_is_there(script, held);
    let before = Snapshot::of(held);
    input_to_change(held, input_place()).use_event();
    post_to(script, held, first);
    post_to(script, held, second);
    activate(script, held, &before, activation);
    desk_to_change(held, desk_place()).remember(under);
}

// Activates a window as it was planned. `before` are the parts with which the step began.
fn activate(
    script: &Script,
    held: &mut Held<Part>,
    before: &Snapshot<Held<Part>>,
    activation: Option<Activation>,
)
    requires allowed { (want : Want)
        × IsAllowed (declared_by script.now) before.now.value.parts who.Input want }
    requires ready { IsToActivate (declared_by script.now) before.now.value.parts held.old.parts
        activation }
    ensures { HasActivated (declared_by script.now) before.now.value.parts activation held.old
        held.new }
{
    if let Some(Activation { mut plan, places }) = activation {
        change_panes(script, held, before, Activity::Input, &mut plan, &places);
        desk_to_change(held, desk_place()).change(plan);
    }
}

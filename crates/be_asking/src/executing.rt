//! What a twin executes: the oldest command of its window.
ghost use Rattle.std.specs.Prelude.{ℕ, ℤ, Bool, List};
ghost use Rattle.be_asking.specs.Deeds.{IsAnswer, IsAsked};
ghost use Rattle.be_asking.specs.Executing.{HasPicture, IsExecution, IsOldest};
ghost use Rattle.be_asking.specs.declared.activity.Activity.TheVariants as who;
ghost use Rattle.be_asking.specs.declared.want.Want.TheVariants as want;
ghost use Rattle.be_bitmap.specs.Pictures.{Picture};
ghost use Rattle.be_command.specs.Effects.{effect_of};
ghost use Rattle.be_geom.specs.declared.point.Point as places;
ghost use Rattle.be_hall.specs.Hands.{meant};
ghost use Rattle.be_pane.specs.Panes as machine;
ghost use Rattle.be_pane.specs.StandsFor.{IsWhole, PaneStandsFor};
ghost use Rattle.be_parts.specs.Parts.{meaning_of};
ghost use Rattle.be_script.specs.Script.{declared_by};
ghost use Rattle.be_span.specs.declared.Cell.{Cell};
ghost use Rattle.be_twin.specs.Judged.{ComesOf, IsNoChange};
ghost use Rattle.be_views.specs.Trees.{Tree};

use crate::deed::{Answer, Deed};
use crate::finding::{find_link, find_pane};
use be_command::Command;
use be_geom::Change;
use be_hall::Held;
use be_machine::Act;
use be_machine::laws::waiting_commands_are_within_limits;
use be_pane::Pane;
use be_parts::Part;
use be_script::Script;
use be_twin::{Outcome, judge};

/// Whether a twin may execute a command.
#[derive(Drop)]
pub enum Execution<'a> {
    /// It may, or not yet, or another part is needed to tell.
    Answered(Answer<'a>),
    /// The oldest command has this number, and changes the window: the desk decides.
    Changes(u64, &'a Change),
}

/// A twin waits while its window's link is empty, and else executes the oldest command. What comes
/// of one that is no change is told by the pane, in a constant number of steps.
pub fn may_execute<'a>(script: &Script, held: &'a Held<Part>, number: u32, w: u16) -> Execution<'a>
    requires { IsAsked (declared_by script.now) held.now.parts number (who.Twin w)
        (want.Executes w) }
    ensures { IsExecution (declared_by script.now) held.now.parts number w result }
{
    let link = match find_link(script, held, w) {
        Ok(link) => link,
        Err(place) => return Execution::Answered(Answer::Needs(place)),
    };
    let (front, command) = match link.link().front() {
        Some(oldest) => oldest,
        None => return Execution::Answered(Answer::NotYet),
    };
    match command {
        Command::Change(change) => Execution::Changes(front, change),
        _ => Execution::Answered(may_do(script, held, number, w, front, command)),
    }
}

// The oldest command is no change of the window.
fn may_do<'a>(
    script: &Script,
    held: &Held<Part>,
    number: u32,
    w: u16,
    front: u64,
    command: &Command,
) -> Answer<'a>
    requires asked { IsAsked (declared_by script.now) held.now.parts number (who.Twin w)
        (want.Executes w) }
    requires oldest { IsOldest (declared_by script.now) held.now.parts w front command.now }
    requires no_change { IsNoChange (effect_of command.now) }
    ensures { IsAnswer (declared_by script.now) (meant meaning_of held.now.parts) number result }
{
    let pane = match find_pane(script, held, w) {
        Ok(pane) => pane,
        Err(place) => return Answer::Needs(place),
    };
    waiting_commands_are_within_limits();
    let outcome = outcome_of(pane.pane(), command);
    Answer::May(Deed::Makes(Act::Exec(front, outcome)))
}

// What comes of a command whose bitmap is there. No picture is looked at.
fn outcome_of(pane: &Pane, command: &Command) -> Outcome
    requires whole { IsWhole pane.now }
    requires no_change { IsNoChange (effect_of command.now) }
    ensures { (pictures : List Picture) → HasPicture pictures (effect_of command.now) →
        (w : ℕ) (corner : places.Point) (kept : machine.Pane) (tree : Tree)
        (owned : ℤ → ℤ → Bool) (cells : ℤ → ℤ → Cell) →
        PaneStandsFor pane.now w corner kept tree owned cells →
        ComesOf pictures corner tree kept (effect_of command.now) result }
{
    match judge(pane, command, &[]) {
        Outcome::NoBitmap => Outcome::Done,
        outcome => outcome,
    }
}

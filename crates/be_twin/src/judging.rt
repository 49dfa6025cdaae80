ghost use Rattle.std.specs.Prelude.{◌≡◌, ◌<◌, ℕ, ℤ, Bool, length, slice_get, nat_lt, option_map};
ghost use Rattle.std.specs.Prelude.{if◌then◌else◌};
ghost use Rattle.be_geom.specs.declared.point.Point as places;
ghost use Rattle.be_span.specs.declared.Cell.{Cell};
ghost use Rattle.be_command.specs.Effects.{effect_of};
ghost use Rattle.be_pane.specs.Panes as machine;
ghost use Rattle.be_pane.specs.StandsFor.{PaneStandsFor, IsWhole};
ghost use Rattle.be_state.specs.Stacks.{can_push, popped};
ghost use Rattle.be_views.specs.Trees.{Tree};
ghost use Rattle.be_views.specs.Whole.{IsTree};
ghost use Rattle.be_twin.specs.Deeds.{popped_outcome};
ghost use Rattle.be_twin.specs.Judged.{ComesOf, IsJudged, IsJudgedBy, IsNoChange};

use crate::Outcome;
use be_bitmap::Bitmap;
use be_command::Command;
use be_pane::Pane;
use be_state::StateStack;

/// What comes of a command that is no change of its window. It takes a constant number of steps,
/// and no memory.
pub fn judge(pane: &Pane, command: &Command, bitmaps: &[Bitmap]) -> Outcome
    requires whole { IsWhole pane.now }
    requires no_change { IsNoChange (effect_of command.now) }
    ensures { (w : ℕ) (corner : places.Point) (kept : machine.Pane) (tree : Tree)
        (owned : ℤ → ℤ → Bool) (cells : ℤ → ℤ → Cell) →
        PaneStandsFor pane.now w corner kept tree owned cells →
        ComesOf bitmaps.now corner tree kept (effect_of command.now) result }
{
    judged(pane, command, bitmaps)
}

/// What comes of a command, told by the pane alone.
pub(crate) fn judged(pane: &Pane, command: &Command, bitmaps: &[Bitmap]) -> Outcome
    requires whole { IsWhole pane.now }
    requires no_change { IsNoChange (effect_of command.now) }
    ensures { IsJudged bitmaps.now pane.now (effect_of command.now) result }
{
    match command {
        Command::Fill(view, ..)
        | Command::Frame(view, ..)
        | Command::Line(view, ..)
        | Command::Text(view, ..)
        | Command::High(view, ..)
        | Command::Low(view, ..)
        | Command::ViewColor(view, ..)
        | Command::Mode(view, ..)
        | Command::PenSize(view, ..)
        | Command::Pen(view, ..)
        | Command::Origin(view, ..)
        | Command::Clip(view, ..)
        | Command::CopyBits(view, ..)
        | Command::Invalidate(view, ..) => plain(pane, *view),
        Command::Bitmap(view, bitmap, _) => pictured(pane, *view, *bitmap, bitmaps),
        Command::Push(view) => saving(pane, *view),
        Command::Pop(view) => restoring(pane, *view),
        Command::Change(_) => unreachable!(),
        Command::EndUpdate => Outcome::Done,
    }
}

/// How a view draws. None where there is no such view.
fn states_of(pane: &Pane, view: u16) -> Option<&StateStack>
    requires { IsWhole pane.now }
    ensures states { option_map (λ states. states.now) result
        ≡ slice_get pane.now.states.items view }
    ensures tree { IsTree pane.now.tree }
{
    if usize::from(view) < pane.tree.len() {
        pane.states.get(usize::from(view))
    } else {
        None
    }
}

/// What comes of what can't be refused at a view.
fn plain(pane: &Pane, view: u16) -> Outcome
    requires { IsWhole pane.now }
    ensures { IsJudgedBy pane.now view (λ _. Outcome.Done) result }
{
    match states_of(pane, view) {
        Some(_) => Outcome::Done,
        None => Outcome::NoView,
    }
}

/// The same of the drawing of a bitmap.
fn pictured(pane: &Pane, view: u16, bitmap: u16, bitmaps: &[Bitmap]) -> Outcome
    requires { IsWhole pane.now }
    ensures { IsJudgedBy pane.now view
        (λ _. if nat_lt bitmap (length bitmaps.now) then Outcome.Done else Outcome.NoBitmap)
        result }
{
    match states_of(pane, view) {
        Some(_) if usize::from(bitmap) < bitmaps.len() => Outcome::Done,
        Some(_) => Outcome::NoBitmap,
        None => Outcome::NoView,
    }
}

/// The same of the saving of its drawing state.
fn saving(pane: &Pane, view: u16) -> Outcome
    requires { IsWhole pane.now }
    ensures { IsJudgedBy pane.now view
        (λ stack. if can_push stack then Outcome.Done else Outcome.StackFull) result }
{
    match states_of(pane, view) {
        Some(states) if states.saved() < 16 => Outcome::Done,
        Some(_) => Outcome::StackFull,
        None => Outcome::NoView,
    }
}

/// The same of the taking back of the state that was saved last.
fn restoring(pane: &Pane, view: u16) -> Outcome
    requires { IsWhole pane.now }
    ensures { IsJudgedBy pane.now view (λ stack. popped_outcome (popped stack)) result }
{
    match states_of(pane, view) {
        Some(states) if states.saved() > 0 => Outcome::Done,
        Some(_) => Outcome::StackEmpty,
        None => Outcome::NoView,
    }
}

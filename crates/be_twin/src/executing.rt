ghost use Rattle.std.specs.Prelude.{◌≡◌, ℕ, ℤ, Bool, true, Some};
ghost use Rattle.be_geom.specs.declared.point.Point as places;
ghost use Rattle.be_command.specs.Effects.{effect_of};
ghost use Rattle.be_pane.specs.Panes as machine;
ghost use Rattle.be_pane.specs.StandsFor.{PaneStandsFor, IsWhole};
ghost use Rattle.be_span.specs.Cells.{Lookup};
ghost use Rattle.be_span.specs.declared.Cell.{Cell};
ghost use Rattle.be_views.specs.Trees.{Tree};
ghost use Rattle.be_twin.specs.Judged.{IsJudged, IsNoChange, HasPen, ComesOf};
ghost use Rattle.be_twin.specs.StandsAfter.{AgreesWith, StandsAfter};
ghost use Rattle.be_twin.specs.Made.{IsPerformed};

use crate::Outcome;
use crate::drawing::{copy_bits, draw, invalidate, pen_size_of};
use crate::judging::judged;
use crate::setting::{
    restore, save, set_clip, set_high, set_low, set_mode, set_origin, set_pen, set_pen_size,
    set_view_color,
};
use be_bitmap::Bitmap;
use be_command::Command;
use be_paint::Ink;
use be_pane::Pane;
use be_shape::Raster;

/// Executes a command that is no change of its window, and gives what `judge` does. A command that
/// is refused changes nothing. It takes no memory. Drawing, copying and invalidating take what
/// their calls in `be_paint` take, a text also a step for each glyph, a clip a few steps for each
/// rectangle, and every other command a constant number.
pub fn execute(pane: &mut Pane, command: Command, bitmaps: &[Bitmap]) -> Outcome
    requires whole { IsWhole pane.old }
    requires no_change { IsNoChange (effect_of command) }
    requires pen { HasPen (effect_of command) }
    ensures whole { IsWhole pane.new }
    ensures outcome { (w : ℕ) (corner : places.Point) (kept : machine.Pane) (tree : Tree)
        (owned : ℤ → ℤ → Bool) (cells : ℤ → ℤ → Cell) →
        PaneStandsFor pane.old w corner kept tree owned cells →
        ComesOf bitmaps.now corner tree kept (effect_of command) result }
    ensures executed { (w : ℕ) (corner : places.Point) (kept : machine.Pane) (tree : Tree)
        (owned : ℤ → ℤ → Bool) (cells : ℤ → ℤ → Cell) (old : Lookup) →
        PaneStandsFor pane.old w corner kept tree owned cells → AgreesWith owned cells old →
        StandsAfter bitmaps.now w corner kept tree owned cells old (effect_of command) pane.new }
{
    match judged(pane, &command, bitmaps) {
        Outcome::Done => {
            perform(pane, command, bitmaps);
            Outcome::Done
        }
        refused => refused,
    }
}

/// Executes a command that isn't refused.
fn perform(pane: &mut Pane, command: Command, bitmaps: &[Bitmap])
    requires whole { IsWhole pane.old }
    requires no_change { IsNoChange (effect_of command) }
    requires pen { HasPen (effect_of command) }
    requires done { IsJudged bitmaps.now pane.old (effect_of command) Outcome.Done }
    ensures { IsPerformed bitmaps.now (effect_of command) pane.old pane.new }
{
    match command {
        Command::Fill(view, rect, pattern) => {
            draw(pane, view, &Ink::Shape(Raster::Fill(rect), pattern));
        }
        Command::Frame(view, rect, pattern) => {
            let raster = Raster::Frame(rect, pen_size_of(pane, view));
            draw(pane, view, &Ink::Shape(raster, pattern));
        }
        Command::Line(view, from, to, pattern) => {
            let raster = Raster::Line(from, to, pen_size_of(pane, view));
            draw(pane, view, &Ink::Shape(raster, pattern));
        }
        Command::Text(view, text) => draw(pane, view, &Ink::Text(text.as_slice())),
        Command::Bitmap(view, bitmap, at) => {
            let ink = Ink::Image(&bitmaps[usize::from(bitmap)], at);
            draw(pane, view, &ink);
        }
        Command::High(view, color) => set_high(pane, view, color),
        Command::Low(view, color) => set_low(pane, view, color),
        Command::ViewColor(view, color) => set_view_color(pane, view, color),
        Command::Mode(view, mode) => set_mode(pane, view, mode),
        Command::PenSize(view, size) => set_pen_size(pane, view, size),
        Command::Pen(view, at) => set_pen(pane, view, at),
        Command::Origin(view, at) => set_origin(pane, view, at),
        Command::Clip(view, clip) => set_clip(pane, view, clip),
        Command::Push(view) => save(pane, view),
        Command::Pop(view) => restore(pane, view),
        Command::CopyBits(view, source, target) => copy_bits(pane, view, source, target),
        Command::Invalidate(view, rect) => invalidate(pane, view, rect),
        Command::Change(_) => unreachable!(),
        Command::EndUpdate => pane.session = None,
    }
}

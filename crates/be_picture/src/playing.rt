ghost use Rattle.std.specs.Prelude.{◌≡◌, All, replicate, true};
ghost use Rattle.be_command.specs.declared.Command.TheVariants.{Pop};
ghost use Rattle.be_command.specs.Effects.{effect_of};
ghost use Rattle.be_command.specs.Limits.{is_drawing};
ghost use Rattle.be_pane.specs.StandsFor.{IsWhole};
ghost use Rattle.be_twin.specs.Judged.{HasPen};
ghost use Rattle.be_picture.specs.OffScreens.{Shows};
ghost use Rattle.be_picture.specs.Playing.{OffScreen, after_commands, done_by};

use be_bitmap::Bitmap;
use be_command::Command;
use be_pane::Pane;

/// Executes drawing commands, one after the other.
pub(crate) fn execute_all(pane: &mut Pane, commands: Vec<Command>, bitmaps: &[Bitmap])
    requires whole { IsWhole pane.old }
    requires drawing { All (λ c. is_drawing c ≡ true) commands.items }
    requires pens { All (λ c. HasPen (effect_of c)) commands.items }
    ensures whole { IsWhole pane.new }
    ensures shows { (off : OffScreen) → Shows pane.old off
        → Shows pane.new (after_commands bitmaps.now off commands.items) }
{
    for command in commands {
        execute(pane, command, bitmaps);
    }
}

/// Takes so many states back.
pub(crate) fn pop_all(pane: &mut Pane, count: u8, bitmaps: &[Bitmap])
    requires { IsWhole pane.old }
    ensures whole { IsWhole pane.new }
    ensures shows { (off : OffScreen) → Shows pane.old off
        → Shows pane.new (after_commands bitmaps.now off (replicate count (Pop 0))) }
{
    for _state in 0..count {
        execute(pane, Command::Pop(0), bitmaps);
    }
}

/// Executes a drawing command.
pub(crate) fn execute(pane: &mut Pane, command: Command, bitmaps: &[Bitmap])
    requires whole { IsWhole pane.old }
    requires drawing { is_drawing command ≡ true }
    requires pen { HasPen (effect_of command) }
    ensures whole { IsWhole pane.new }
    ensures shows { (off : OffScreen) → Shows pane.old off
        → Shows pane.new (done_by bitmaps.now off (effect_of command)) }
{
    let _outcome = be_twin::execute(pane, command, bitmaps);
}

//! Commands come into a window's buffer.
ghost use Rattle.std.specs.Prelude.{◌≡◌};
ghost use Rattle.be_asking.specs.declared.activity.Activity.TheVariants as who;
ghost use Rattle.be_asking.specs.declared.activity.Runner.TheVariants as by;
ghost use Rattle.be_asking.specs.declared.want.Request.TheVariants as request;
ghost use Rattle.be_asking.specs.declared.want.Want.TheVariants as want;
ghost use Rattle.be_script.specs.Script.{declared_by};
ghost use Rattle.be_steps.specs.Steps.{IsAllowed, IsDone};

use crate::going::{go_to, place_past};
use crate::own_window::own_window;
use crate::there::{looper_is_there, own_is_there};
use be_asking::{Request, Runner, looper_place};
use be_command::Command;
use be_hall::Held;
use be_parts::{Part, looper_to_change};
use be_script::Script;

/// The looper of window `w` has drawn its update: the command that ends it is the last in the
/// buffer, and only the end of the notice is left.
pub fn put_end(script: &Script, held: &mut Held<Part>, w: u16)
    requires { IsAllowed (declared_by script.now) held.old.parts (who.Runner (by.Looper w))
        (want.DrawsEnd w) }
    ensures { IsDone (declared_by script.now) (who.Runner (by.Looper w)) held.old held.new }
{
    looper_is_there(script, held, w);
    let looper = looper_to_change(held, looper_place(script, w));
    looper.put(Command::EndUpdate);
    looper.draw_nothing_more();
}

/// A command comes behind those in the buffer of the window whose looper the runner owns, and the
/// runner goes on.
pub fn draw(
    script: &Script,
    held: &mut Held<Part>,
    runner: Runner,
    command: &Command,
    copy: Command,
)
    requires allowed { IsAllowed (declared_by script.now) held.old.parts (who.Runner runner)
        (want.Asks runner (request.Draw command)) }
    requires copy { copy ≡ command.now }
    ensures { IsDone (declared_by script.now) (who.Runner runner) held.old held.new }
{
    own_is_there(script, held, runner);
    let w = own_window(script, held, runner, Request::Draw(command));
    looper_is_there(script, held, w);
    let next = place_past(script, held, runner, Request::Draw(command), false);
    looper_to_change(held, looper_place(script, w)).put(copy);
    go_to(script, held, runner, next);
}

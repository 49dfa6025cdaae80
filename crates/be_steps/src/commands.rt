//! Commands on their way from the buffer to the link.
ghost use Rattle.std.specs.Prelude.{◌≡◌, ◌≢◌, Some};
ghost use Rattle.be_asking.specs.declared.activity.Activity.TheVariants as who;
ghost use Rattle.be_asking.specs.declared.activity.Runner.TheVariants as by;
ghost use Rattle.be_asking.specs.declared.want.Request.TheVariants as request;
ghost use Rattle.be_asking.specs.declared.want.Want.TheVariants as want;
ghost use Rattle.be_hall.specs.Hands.{part_at};
ghost use Rattle.be_parts.specs.Kept.{Kept};
ghost use Rattle.be_rules.specs.Slices.{Slice};
ghost use Rattle.be_script.specs.Script.{declared_by};
ghost use Rattle.be_steps.specs.Commands.{HasMoved, HasMovedFirst, HasRoom};
ghost use Rattle.be_steps.specs.Steps.{IsAllowed, IsDone};

use crate::going::{go_to, place_past};
use crate::own_window::own_window;
use crate::there::{link_is_there, looper_is_there, own_is_there};
use be_asking::{Request, Runner, link_place, looper_place};
use be_hall::Held;
use be_parts::{Part, link_to_change, looper_at, looper_to_change};
use be_script::Script;

/// The whole buffer of window `w`'s looper goes over to the link, before the looper goes on.
pub fn flush(script: &Script, held: &mut Held<Part>, w: u16)
    requires { IsAllowed (declared_by script.now) held.old.parts (who.Runner (by.Looper w))
        (want.Flushes w) }
    ensures { IsDone (declared_by script.now) (who.Runner (by.Looper w)) held.old held.new }
{
    looper_is_there(script, held, w);
    link_is_there(script, held, w);
    move_over(held, looper_place(script, w), link_place(script, w));
}

/// The whole buffer of the window whose looper the runner owns goes over to the link, and the
/// runner goes on: `BView::Flush`.
pub fn flush_asked(script: &Script, held: &mut Held<Part>, runner: Runner)
    requires { IsAllowed (declared_by script.now) held.old.parts (who.Runner runner)
        (want.Asks runner request.Flush) }
    ensures { IsDone (declared_by script.now) (who.Runner runner) held.old held.new }
{
    own_is_there(script, held, runner);
    let w = own_window(script, held, runner, Request::Flush);
    looper_is_there(script, held, w);
    link_is_there(script, held, w);
    let next = place_past(script, held, runner, Request::Flush, false);
    move_over(held, looper_place(script, w), link_place(script, w));
    go_to(script, held, runner, next);
}

/// The link of the window whose looper the runner owns is empty, and the runner goes on:
/// `BView::Sync`.
pub fn sync(script: &Script, held: &mut Held<Part>, runner: Runner)
    requires { IsAllowed (declared_by script.now) held.old.parts (who.Runner runner)
        (want.Asks runner request.SyncDone) }
    ensures { IsDone (declared_by script.now) (who.Runner runner) held.old held.new }
{
    own_is_there(script, held, runner);
    let next = place_past(script, held, runner, Request::SyncDone, false);
    go_to(script, held, runner, next);
}

// All commands in the buffer of the looper at this place come behind those in the link at that
// place, the oldest first.
fn move_over(held: &mut Held<Part>, looper: u32, link: u32)
    requires looper { (k : Kept) × (part_at held.old.parts looper ≡ Some (Part.Looper k)) }
    requires link { (l : Slice) × (part_at held.old.parts link ≡ Some (Part.Link l)) }
    requires apart { looper ≢ link }
    requires room { HasRoom looper link held.old.parts }
    ensures { HasMoved looper link held.old held.new }
{
    let count = looper_at(held, looper).buffer().len();
    for _ in 0..count {
        move_oldest(held, looper, link);
    }
}

// The oldest command, where there is one.
fn move_oldest(held: &mut Held<Part>, looper: u32, link: u32)
    requires looper { (k : Kept) × (part_at held.old.parts looper ≡ Some (Part.Looper k)) }
    requires link { (l : Slice) × (part_at held.old.parts link ≡ Some (Part.Link l)) }
    requires apart { looper ≢ link }
    requires room { HasRoom looper link held.old.parts }
    ensures { HasMovedFirst 1 looper link held.old held.new }
{
    if let Some((number, command)) = looper_to_change(held, looper).pop() {
        link_to_change(held, link).push(number, command);
    }
}

ghost use Rattle.be_asking.specs.declared.activity.Activity.TheVariants as who;
ghost use Rattle.be_asking.specs.declared.activity.Runner.TheVariants as by;
ghost use Rattle.be_asking.specs.declared.want.Want.TheVariants as want;
ghost use Rattle.be_script.specs.Limits.{IsWithinLimits};
ghost use Rattle.be_script.specs.Script.{declared_by};
ghost use Rattle.be_steps.specs.Ending.{IsEndWord};
ghost use Rattle.be_steps.specs.Going.{HasOwn};
ghost use Rattle.be_steps.specs.Steps.{IsAllowed, IsDone};

use crate::there::looper_is_there;
use crate::waiters::{tell, who_waits};
use be_asking::looper_place;
use be_hall::Held;
use be_handler::Route;
use be_message::Message;
use be_parts::{Part, looper_at, looper_to_change};
use be_script::Script;
use std::alloc::Global;

/// `B_NO_REPLY`.
const NO_REPLY: u32 = 0x4e4f_5245;

/// `B_MESSAGE_NOT_UNDERSTOOD`.
const NOT_UNDERSTOOD: u32 = 0x4e4f_5455;

/// The message in the hand of window `w`'s looper ends: the looper is free, and who still waits is
/// told that no reply comes, or that the message wasn't understood. That is a word without fields,
/// which takes no memory.
pub fn end(alloc: Global, script: &Script, held: &mut Held<Part>, w: u16)
    requires { IsAllowed (declared_by script.now) held.old.parts (who.Runner (by.Looper w))
        (want.Ends w) }
    ensures { IsDone (declared_by script.now) (who.Runner (by.Looper w)) held.old held.new }
{
    looper_is_there(script, held, w);
    let waits = who_waits(script, held, w);
    let word = Message::new(alloc, end_word(script, held, w));
    looper_to_change(held, looper_place(script, w)).end();
    tell(held, waits, word);
}

// What an end tells who waits, by where the message went.
fn end_word(script: &Script, held: &Held<Part>, w: u16) -> u32
    requires limits { IsWithinLimits (declared_by script.now) }
    requires looper { HasOwn (declared_by script.now) held.now.parts (by.Looper w) }
    ensures { IsEndWord (declared_by script.now) held.now.parts w result }
{
    match looper_at(held, looper_place(script, w)).route() {
        Some(Route::Unknown) => NOT_UNDERSTOOD,
        Some(Route::Skipped | Route::Handler(_)) | None => NO_REPLY,
    }
}

//! What a runner wants of the window whose looper it owns.
ghost use Rattle.std.specs.Prelude.{Some};
ghost use Rattle.be_asking.specs.Acts.{OwnsWindow};
ghost use Rattle.be_asking.specs.Deeds.{IsAnswer, IsAsked};
ghost use Rattle.be_asking.specs.declared.activity.Activity.TheVariants as who;
ghost use Rattle.be_asking.specs.declared.want.Request.TheVariants as request;
ghost use Rattle.be_asking.specs.declared.want.Want.TheVariants as want;
ghost use Rattle.be_hall.specs.Hands.{meant};
ghost use Rattle.be_parts.specs.Parts.{meaning_of};
ghost use Rattle.be_script.specs.Script.{declared_by};

use crate::activity::Runner;
use crate::acts::{drawn, flushed, synced};
use crate::deed::{Answer, Deed};
use crate::finding::{find_link, find_looper};
use be_command::Command;
use be_hall::Held;
use be_machine::Act;
use be_parts::Part;
use be_script::Script;

/// The looper is let go.
pub(crate) fn may_unlock<'a>(
    script: &Script,
    held: &Held<Part>,
    number: u32,
    runner: Runner,
    w: u16,
) -> Answer<'a>
    requires asked { IsAsked (declared_by script.now) held.now.parts number (who.Runner runner)
        (want.Asks runner request.Unlock) }
    requires owns { OwnsWindow (declared_by script.now) held.now.parts runner (Some w) }
    ensures { IsAnswer (declared_by script.now) (meant meaning_of held.now.parts) number result }
{
    match find_looper(script, held, w) {
        Err(place) => Answer::Needs(place),
        Ok(_) => Answer::May(Deed::Makes(Act::Unlock(w))),
    }
}

/// The buffer goes over whole, where the link has room for it.
pub(crate) fn may_flush_owned<'a>(
    script: &Script,
    held: &Held<Part>,
    number: u32,
    runner: Runner,
    w: u16,
) -> Answer<'a>
    requires asked { IsAsked (declared_by script.now) held.now.parts number (who.Runner runner)
        (want.Asks runner request.Flush) }
    requires owns { OwnsWindow (declared_by script.now) held.now.parts runner (Some w) }
    ensures { IsAnswer (declared_by script.now) (meant meaning_of held.now.parts) number result }
{
    let looper = match find_looper(script, held, w) {
        Ok(looper) => looper,
        Err(place) => return Answer::Needs(place),
    };
    let link = match find_link(script, held, w) {
        Ok(link) => link,
        Err(place) => return Answer::Needs(place),
    };
    match flushed(looper, link, w) {
        None => Answer::NotYet,
        Some(act) => Answer::May(Deed::Makes(act)),
    }
}

/// A sync is done once the link is empty.
pub(crate) fn may_sync<'a>(
    script: &Script,
    held: &Held<Part>,
    number: u32,
    runner: Runner,
    w: u16,
) -> Answer<'a>
    requires asked { IsAsked (declared_by script.now) held.now.parts number (who.Runner runner)
        (want.Asks runner request.SyncDone) }
    requires owns { OwnsWindow (declared_by script.now) held.now.parts runner (Some w) }
    ensures { IsAnswer (declared_by script.now) (meant meaning_of held.now.parts) number result }
{
    let link = match find_link(script, held, w) {
        Ok(link) => link,
        Err(place) => return Answer::Needs(place),
    };
    match synced(link, w) {
        None => Answer::NotYet,
        Some(act) => Answer::May(Deed::Makes(act)),
    }
}

/// A command comes into the buffer, where that has room.
pub(crate) fn may_draw<'a>(
    script: &Script,
    held: &Held<Part>,
    number: u32,
    runner: Runner,
    w: u16,
    command: &Command,
) -> Answer<'a>
    requires asked { IsAsked (declared_by script.now) held.now.parts number (who.Runner runner)
        (want.Asks runner (request.Draw command)) }
    requires owns { OwnsWindow (declared_by script.now) held.now.parts runner (Some w) }
    ensures { IsAnswer (declared_by script.now) (meant meaning_of held.now.parts) number result }
{
    let looper = match find_looper(script, held, w) {
        Ok(looper) => looper,
        Err(place) => return Answer::Needs(place),
    };
    let _command = command;
    match drawn(looper, w) {
        None => Answer::NotYet,
        Some(act) => Answer::May(Deed::Makes(act)),
    }
}

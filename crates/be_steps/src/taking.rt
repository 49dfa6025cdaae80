//! Letters come into loopers' hands.
ghost use Rattle.be_asking.specs.declared.activity.Activity.TheVariants as who;
ghost use Rattle.be_asking.specs.declared.activity.Runner.TheVariants as by;
ghost use Rattle.be_asking.specs.declared.want.Want.TheVariants as want;
ghost use Rattle.be_script.specs.Script.{declared_by};
ghost use Rattle.be_steps.specs.Steps.{IsAllowed, IsDone};
ghost use Rattle.be_steps.specs.Taking.{IsFrontMessage};

use crate::left::left_at;
use crate::there::{looper_is_there, port_is_there};
use be_asking::{Activity, Runner, looper_place, port_place};
use be_hall::Held;
use be_handler::Route;
use be_message::Message;
use be_parts::{Part, looper_to_change, port_to_change};
use be_script::Script;
use std::snapshot::Snapshot;

/// The free looper of window `w` takes the letter in front of its port, with the message that its
/// bytes spell, and the message's route.
pub fn take(script: &Script, held: &mut Held<Part>, w: u16, message: Message, route: Route)
    requires allowed { IsAllowed (declared_by script.now) held.old.parts
        (who.Runner (by.Looper w)) (want.Takes w) }
    requires front { IsFrontMessage (declared_by script.now) held.old.parts w message route }
    ensures { IsDone (declared_by script.now) (who.Runner (by.Looper w)) held.old held.new }
{
    looper_is_there(script, held, w);
    port_is_there(script, held, w);
    let before = Snapshot::of(held);
    let place = port_place(script, w);
    let means = left_at(script, &before, Activity::Runner(Runner::Looper(w)), place);
    let letter = port_to_change(held, place).take(means);
    looper_to_change(held, looper_place(script, w)).begin(letter, message, route);
}

ghost use Rattle.be_asking.specs.declared.activity.Activity.TheVariants as who;
ghost use Rattle.be_asking.specs.declared.activity.Runner.TheVariants as by;
ghost use Rattle.be_asking.specs.declared.want.Request.TheVariants as request;
ghost use Rattle.be_asking.specs.declared.want.Want.TheVariants as want;
ghost use Rattle.be_script.specs.Script.{declared_by};
ghost use Rattle.be_steps.specs.Steps.{IsAllowed, IsDone};
ghost use Rattle.be_steps.specs.Waiters.{IsReply};

use crate::going::place_past;
use crate::there::looper_is_there;
use crate::waiters::{tell, who_waits};
use be_actor::Draft;
use be_asking::{Request, Runner, looper_place};
use be_hall::Held;
use be_message::Message;
use be_parts::{Part, looper_to_change};
use be_script::Script;

/// The looper of window `w` replies to the message in its hand: the reply goes to who waits for it,
/// and to nobody where that was done or nobody waits.
pub fn reply(script: &Script, held: &mut Held<Part>, w: u16, draft: &Draft, message: Message)
    requires allowed { IsAllowed (declared_by script.now) held.old.parts
        (who.Runner (by.Looper w)) (want.Asks (by.Looper w) (request.Reply draft)) }
    requires message { IsReply (declared_by script.now) held.old.parts w draft.now message }
    ensures { IsDone (declared_by script.now) (who.Runner (by.Looper w)) held.old held.new }
{
    looper_is_there(script, held, w);
    let waits = who_waits(script, held, w);
    let next = place_past(
        script,
        held,
        Runner::Looper(w),
        Request::Reply(draft),
        false,
    );
    let looper = looper_to_change(held, looper_place(script, w));
    let _answer = looper.reply();
    looper.go_to(next);
    tell(held, waits, message);
}

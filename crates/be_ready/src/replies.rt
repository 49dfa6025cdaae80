ghost use Rattle.std.specs.Prelude.{IfOk};
ghost use Rattle.be_asking.specs.declared.activity.Runner.TheVariants as by;
ghost use Rattle.be_asking.specs.declared.want.Request.TheVariants as request;
ghost use Rattle.be_ready.specs.Letters.{Asks};
ghost use Rattle.be_script.specs.Script.{declared_by};
ghost use Rattle.be_steps.specs.Waiters.{IsReply};

use crate::drafts::looper_message;
use be_actor::Draft;
use be_asking::Request;
use be_geom::NoMemory;
use be_hall::Held;
use be_message::Message;
use be_parts::Part;
use be_script::Script;
use std::alloc::Global;

/// The reply that the looper of window `w` asks for: `BMessage::SendReply`. It takes memory for
/// the message, in steps for each byte of it and for each pair of its names. The looper's body is
/// looked for among the script's.
pub fn reply_message(
    alloc: Global,
    script: &Script,
    held: &Held<Part>,
    w: u16,
    draft: &Draft,
) -> Result<Message, NoMemory>
    requires { Asks (declared_by script.now) held.now.parts (by.Looper w) (request.Reply draft) }
    ensures { IfOk result (IsReply (declared_by script.now) held.now.parts w draft.now) }
{
    looper_message(alloc, script, held, w, Request::Reply(draft))
}

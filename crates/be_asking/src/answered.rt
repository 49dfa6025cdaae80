ghost use Rattle.std.specs.Prelude.{◌≡◌};
ghost use Rattle.be_machine.specs.Looper.{kind_of_reply};

use be_machine::Answered;
use be_message::Message;

/// `B_NO_REPLY`.
const NO_REPLY: u32 = 0x4e4f_5245;

/// `B_MESSAGE_NOT_UNDERSTOOD`.
const NOT_UNDERSTOOD: u32 = 0x4e4f_5455;

/// What the message is to an application that waited for a reply.
pub(crate) fn answered_by(message: &Message) -> Answered
    ensures { result ≡ kind_of_reply message.now }
{
    match message.what() {
        NO_REPLY => Answered::NoReply,
        NOT_UNDERSTOOD => Answered::Unknown,
        _ => Answered::Reply,
    }
}

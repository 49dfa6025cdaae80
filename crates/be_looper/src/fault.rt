use crate::Owner;
use be_handler::Route;
use be_message::Message;
use be_port::Letter;
use thiserror::Error;

/// The looper isn't free.
#[derive(Clone, Copy, Debug, PartialEq, Eq, Error)]
#[error("the looper isn't free")]
pub struct Held {
    pub owner: Owner,
}

/// Why no message was begun; all that was handed over comes back.
#[derive(Debug, Drop, Error)]
pub enum BeginFault {
    /// The looper isn't free.
    #[error("the looper isn't free")]
    Held {
        owner: Owner,
        letter: Letter,
        message: Message,
        route: Route,
    },
}

/// Who wants to let go of the looper doesn't own it.
#[derive(Clone, Copy, Debug, PartialEq, Eq, Error)]
#[error("the looper belongs to somebody else")]
pub struct NotOwner;

/// The looper handles no message.
#[derive(Clone, Copy, Debug, PartialEq, Eq, Error)]
#[error("no message is handled")]
pub struct NoMessage;

/// Why nobody gets a reply.
#[derive(Clone, Copy, Debug, PartialEq, Eq, Error)]
pub enum ReplyFault {
    /// The looper handles no message.
    #[error("no message is handled")]
    NoMessage,
    /// No application waits for a reply.
    #[error("nobody waits for a reply")]
    NoReplyWanted,
    /// The reply was given: `B_DUPLICATE_REPLY`.
    #[error("the reply was given")]
    DuplicateReply,
}

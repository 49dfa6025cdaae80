use be_message::Message;
use thiserror::Error;

/// Why a reply was not taken; it is handed back.
#[derive(Debug, Drop, Error)]
pub enum PutFault {
    /// The application doesn't wait, or has its reply.
    #[error("nobody waits for the reply")]
    NotWaiting(Message),
}

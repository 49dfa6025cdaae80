use be_message::Message;

/// Whether an application waits, and what it got.
#[derive(Debug, Drop)]
pub enum Stage {
    Idle,
    Waiting,
    Replied(Message),
}

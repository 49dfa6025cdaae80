use be_message::{Message, Target};

/// A letter that a window's looper took.
#[derive(Debug, Drop)]
pub struct TakenLetter {
    pub window: u16,
    /// Which letter of the window's port it was, counted from 1.
    pub number: u64,
    pub target: Target,
    pub message: Message,
}

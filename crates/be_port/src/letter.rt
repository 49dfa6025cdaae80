use crate::{Duty, Sender};
use be_flat::Bytes;
use be_message::Target;

/// A message on its way to a window's looper, flattened.
#[derive(Debug, Drop)]
pub struct Letter {
    /// Which letter of its port it is, from 1; the port sets it.
    pub number: u64,
    pub sender: Sender,
    pub target: Target,
    /// How many messages were handled on the way to it.
    pub hop: u8,
    pub duty: Duty,
    /// Whether it is an update notice; the port sets it.
    pub notice: bool,
    /// The message, flattened.
    pub bytes: Bytes,
}

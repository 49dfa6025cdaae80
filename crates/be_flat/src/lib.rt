//! Messages as bytes, and back.
//!
//! Each message has one spelling. Writing and reading take a time that is linear in the bytes,
//! beside a look at the names of a message for each of its fields.
#![tactic(auto)]

mod bytes;
mod code;
mod cursor;
mod fault;
mod laws;
mod part;
mod reading;
mod writing;

pub use bytes::Bytes;
pub use fault::FlatError;
pub use laws::{
    a_bad_byte_begins_no_spelling, bytes_before_a_bad_one_are_truncated,
    each_message_has_one_spelling, every_front_is_truncated, no_spelling_begins_another,
    what_follows_is_extra,
};
pub use reading::unflatten;
pub use writing::flatten;

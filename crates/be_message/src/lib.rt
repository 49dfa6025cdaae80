//! Typed messages: a `what` and fields, each of them with a name, one type and its values.
//!
//! A message has at most 255 fields, a field 1 to 255 values, a name 1 to 32 characters, a text at
//! most 1,024 bytes, and messages lie within messages to a depth of 16. A field is found by its
//! name among those that the message has; a message's own depth is kept beside it.
#![tactic(auto)]

mod fault;
mod field;
mod fields;
mod kind;
mod message;
mod names;
mod target;
mod text;
mod value;

pub use fault::{AddFault, FindFault, NameNotFound, ReplaceFault};
pub use field::Field;
pub use kind::Kind;
pub use message::Message;
pub use target::Target;
pub use text::Text;
pub use value::Value;

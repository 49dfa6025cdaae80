//! The text of a report, piece by piece: the lines of a history, what was noted of it, a message,
//! and a screen.
//!
//! Each piece is written behind the others on a page, in a time that is linear in its bytes, but
//! for the names of handlers, each of which is looked for among all views or all plain handlers.
//! What a runner notes is written when its entry is made; what all of them noted is put together at
//! the end. A screen is written in one pass over its cells.
#![tactic(auto)]

mod cut;
mod laws;
mod message;
mod note;
mod page;
mod plain;
mod runner;
mod said;
mod screen;
mod spelt;
mod taken;
mod traces;
mod writing;

pub use laws::a_runner_notes_its_own_entries;
pub use message::write_message;
pub use note::{Note, write_note};
pub use page::Page;
pub use runner::Runner;
pub use said::Said;
pub use screen::{Screen, write_screen};
pub use taken::Taken;
pub use traces::{Notes, write_traces};
pub use writing::write_history;

//! What the words of a script's line say by themselves, whatever other lines said: its first word
//! and where it may stand, numbers, words of a table, the options of a window, and the fields of a
//! message.
#![tactic(auto)]

mod fields;
pub mod judging;
mod options;
mod shaped;
mod site;
mod standing;
mod statement;

pub use fields::read_fields;
pub use options::{Options, read_options};
pub use site::{Allowed, Seat, Site};
pub use statement::Statement;

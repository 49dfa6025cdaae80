//! View trees as text: a line for each of its views, or the one line of its archive, which is the
//! archive's bytes in hexadecimal digits.
//!
//! Writing and reading take a time that is linear in the text, beside a look at each view of the
//! script for those of a window. A tree's text has some 2,000 bytes at most, whichever it is.
#![tactic(auto)]

mod law;
mod line;
mod opening;
mod reading;
mod text;

pub use law::{an_archive_line_comes_back, nothing_else_is_an_archive_line};
pub use line::write_archive;
pub use reading::read_archive;
pub use text::write_tree;

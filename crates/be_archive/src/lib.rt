//! View trees as messages: `BView::Archive`, with fields of this project's own.
//!
//! The size of the root's frame is one field. Of the further views there are four, each of which
//! has a value for each view in order: parents, frames, and how they follow their parents' size.
//! All is linear in the views.
#![tactic(auto)]

mod columns;
mod fault;
mod law;
mod reading;
mod rows;
mod writing;

pub use fault::ArchiveFault;
pub use law::{a_tree_comes_back, nothing_else_is_an_archive};
pub use reading::unarchive;
pub use writing::archive;

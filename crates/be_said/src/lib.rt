//! What the lines of a script said so far, and what one line more adds to it.
//!
//! A name of a window, an application or a bitmap is found among the at most 64 that there may be;
//! those of a window's views and handlers stand with the window. `done` adds a line in a few steps
//! for each name of its kind and each filter of its list, and moves what it adds.
#![tactic(auto)]

mod begun;
mod deeds;
mod fault;
mod inside;
mod said;

pub use deeds::Deed;
pub use fault::LineFault;
pub use said::SoFar;

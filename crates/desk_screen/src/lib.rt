//! A screen of windows with what each shows, for tests and measurements.
//!
//! A `Screen` is a desk with the pane of each of its windows, by their numbers. It starts with
//! hidden windows, and is changed by `be_desk` alone. All panes are handed to each plan, those of
//! windows that a change leaves alone among them.
#![tactic(auto)]

mod asking;
mod changing;
mod declared;
mod fault;
mod making;
mod marking;
mod screen;

pub use declared::{Child, Declared};
pub use fault::{Refusal, ScreenFault};
pub use screen::Screen;

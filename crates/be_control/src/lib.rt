//! Buttons: which of the letters that a window takes invoke a view.
//!
//! A press is a button of the mouse that goes down and comes up inside the view, with the pointer
//! in it all the while, as far as the window's letters tell. No call takes memory.
#![tactic(auto)]

mod button;
mod law;

pub use button::{Button, Pressed};
pub use law::two_letters_invoke;

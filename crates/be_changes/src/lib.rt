//! What a change of a window, and an event of the input, make of the parts in hand.
//!
//! A change was planned before, with the panes of the windows that it alters. It is carried out
//! pane by pane, each in its part, and on the desk last. It takes no memory: the pixels that a pane
//! had go with the plan.
#![tactic(auto)]

mod changing;
mod events;
mod panes;
mod ports;
mod posts;

pub use changing::{change, refuse};
pub use events::{Activation, Addressed, Delivered, deliver};

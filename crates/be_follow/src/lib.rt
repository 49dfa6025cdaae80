//! How a view's frame goes with its parent's size.
//!
//! A frame is in the parent's coordinates, y grows downwards, and its right and bottom edges belong
//! to it. Every call takes a constant number of steps and no memory.
#![tactic(auto)]

mod frame;
mod law;
mod mode;

pub use frame::follow;
pub use law::any_way_is_the_same;
pub use mode::{Across, Down, Follow};

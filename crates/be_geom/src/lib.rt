//! Points, rectangles and the changes of a window, as plain values.
//!
//! Coordinates are whole numbers of 16 bits with a sign, and grow to the right and downwards. The
//! right and bottom edges of a rectangle belong to it. Every call takes a constant number of steps
//! and no memory.
#![tactic(auto)]

mod change;
mod memory;
mod point;
mod rect;

pub use change::Change;
pub use memory::NoMemory;
pub use point::{OutOfRange, Point};
pub use rect::Rect;

//! The windows of a screen: their order from front to back, their frames, how often each is hidden,
//! and which of them is active.
//!
//! A screen has at most 32 windows, closed ones among them. Every call looks at each of them a
//! constant number of times at most, and none goes pixel by pixel. `visible` takes each shown
//! window in front off its region, at the cost of the rectangles that are left there. `add`, `copy`
//! and `visible` alone take memory: a change of a window never does.
#![tactic(auto)]

mod fault;
mod flags;
mod frame;
mod law;
mod order;
mod stack;
mod visible;
mod window;

pub use fault::{ChangeFault, StackFault};
pub use flags::WindowFlags;
pub use law::{active_stays_shown, order_stays_whole};
pub use stack::Stack;
pub use window::Window;

//! Parts shared by threads, and one history over all of them.
#![tactic(auto)]

mod close;
mod entries;
mod fault;
mod hall;
mod held;
mod open;
mod parts;
mod pass;
mod passing;
mod places;
mod rulebook;
mod stop;
mod view;
mod words;

pub use close::Closed;
pub use fault::CloseFault;
pub use hall::Hall;
pub use held::Held;
pub use parts::{Parts, Verdict};
pub use pass::Pass;
pub use places::Busy;

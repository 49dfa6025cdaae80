//! A small world for the runs: producers give units to consumers, which use them up, and the
//! closing activity comes last.
//!
//! Each activity has a counter of its own, at the place of its number. A producer wants the counter
//! of its consumer too, where it has a unit to give. It ends with its last unit. A consumer waits
//! for more. The closing activity wants all counters, and steps once, when nobody else has anything
//! to do.
#![tactic(auto)]

mod counter;
mod judging;
mod opening;
mod parts;
mod step;
mod turns;
mod world;

pub use counter::Counter;
pub use parts::ReadyStep;
pub use step::{Count, Step};
pub use world::World;

//! The rules of a script's run over the server's parts: what each activity does next, and what its
//! entry makes of the parts in hand.
//!
//! A run begins with the parts of the opening. An activity asks with its own parts in hand, takes
//! those that it is told to, and makes its entry once all that this touches is there. Every entry
//! leaves the parts as the window machine's next state has them.
#![tactic(auto)]

mod acts;
mod asked;
mod bitmaps;
mod entries;
mod executing;
mod input;
mod judging;
mod logs;
mod making;
mod marks;
mod meeting;
mod opening;
mod owning;
mod parts;
mod performing;
mod preparing;
mod stirring;
mod turning;
mod turns;
mod work;
mod world;

pub use preparing::ReadyEntry;
pub use work::Work;
pub use world::World;

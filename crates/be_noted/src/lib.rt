//! A script's run in which whoever makes an entry keeps what it notes of it: the lines of its
//! trace.
//!
//! The lines are text, known before the entry from the parts in hand and from what was made for the
//! entry, and are kept by the part that keeps the entry. So a run leaves its traces beside its
//! history, each runner's in one part, and nothing is carried out twice. A note costs its bytes.
#![tactic(auto)]

mod asking;
mod claiming;
mod listing;
mod noting;
mod opening;
mod parts;
mod replying;
mod taking;
mod text;
mod turns;
mod wanting;

pub use noting::{NotedMeaning, Noting};
pub use parts::NotedEntry;

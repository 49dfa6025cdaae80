//! Finished runs of a script, each told in the machine's words: its history is one of the window
//! machine, and its parts stand for the state that this history leaves.
#![tactic(auto)]

mod alone;
mod finished;

pub use alone::run_alone;
pub use finished::Finished;

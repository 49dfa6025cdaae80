//! Gates of tests: each holds an activity at a spot until another one is there too, or for a while,
//! and counts who came where. One more has a lock around each turn.
//!
//! A gate that waits turns, and gives up after so many loads of its flag. So it needs no handle,
//! and a run that it holds up goes on in the end, though the test that asked for it has failed
//! then. The one with a lock waits for it, and needs a handle for that.
//!
//! What the counts are can't be said by a clause, since other threads add to them.
#![tactic(auto)]

mod before;
mod delays;
mod inside;
mod meeting;
mod one_lock;
mod visits;

pub use before::HoldsBefore;
pub use delays::DelaysBefore;
pub use inside::HoldsInside;
pub use one_lock::OneLock;
pub use visits::Visits;

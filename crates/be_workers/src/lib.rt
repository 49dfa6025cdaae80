//! A thread for each activity of shared parts, and the history that they make.
//!
//! A worker makes turns of its own activity, and the closing one of those too whose workers haven't
//! begun. It ends where its activity is over, where the closing entry was made, or for want of
//! memory. Where all workers have ended their passes are joined, and the hall is closed.
#![tactic(auto)]

mod close;
mod crew;
mod fork;
mod tools;
mod turn;
mod wants;
mod worker;

pub use close::finish;
pub use crew::{hire, work};
pub use fork::{Spread, for_each};
pub use wants::Wants;
pub use worker::{End, Worker};

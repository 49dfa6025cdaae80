//! A script's run on threads: a thread for each activity, which sleeps while it has no legal entry
//! and is woken by whoever changes what it looked at. Threads are started at a concrete world
//! alone.
#![tactic(auto)]

mod crew;
mod run;

pub use run::{run_on_one_thread, run_on_threads};

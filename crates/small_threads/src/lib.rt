//! The small world on threads. Threads are started at a concrete world alone, so each world has a
//! crate such as this one.
#![tactic(auto)]

mod crew;
mod run;

pub use run::{run_on_one_thread, run_on_threads};

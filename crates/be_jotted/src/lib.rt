//! The rules of the world's parts, where a runner's part keeps what the runner notes: at the end of
//! a legal history it has the text of the runner's whole trace.
//!
//! The crate has no data and runs nothing.
#![tactic(auto)]

pub mod laws;

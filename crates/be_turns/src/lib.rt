//! Activities of shared parts: what each does next, and which parts it wants for that.
//!
//! A run on threads and one on a single thread are proved for any `Turns`.
#![tactic(auto)]

mod turns;

pub use turns::{Turn, Turns};

//! Parts that keep notes beside what they mean: whoever makes an entry writes what is noted of it
//! into the part that keeps the entry. Of any rules, what the parts mean goes on as without notes.
//!
//! What holds of them is proved of definitions alone: the crate has no data and runs nothing.
#![tactic(auto)]

pub mod laws;

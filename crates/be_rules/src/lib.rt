//! The rules of the world's parts. The machine's state is cut into slices, one for each part; the
//! rules say which lists of slices may come about, what an entry makes of them, and which of them
//! it touches. What holds of them is proved of definitions alone: the crate has no data and runs
//! nothing.
#![tactic(auto)]

pub mod laws;

//! A script that is made of a number: eight windows that lie anywhere, each with a body that draws
//! a corner, four applications with forty commands each, and twenty presses. Its text takes a time
//! that is linear in its bytes, some 5,600.
#![tactic(auto)]

mod apps;
mod draws;
mod law;
mod making;
mod presses;
mod windows;
mod words;

pub use law::what_is_made_is_a_script;
pub use making::make;

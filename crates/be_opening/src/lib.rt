//! The parts with which a run of a script begins: nothing is shown, nothing is on its way, every
//! looper is free, and every program is at its first instruction.
//!
//! The parts stand in the order of their places: the desk, the input, each application's cell, then
//! each window's looper, each window's port, each window's link, and each window's pane. A window's
//! views are found by a look at every view of the script, so the cost is that of all windows times
//! all views. No pixel is looked at.
#![tactic(auto)]

mod activities;
mod desk;
mod panes;
mod parts;
mod ports;
mod views;

pub use parts::opening;

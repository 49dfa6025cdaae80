//! A history as a certificate: whether it is one of a script's finished runs, which entry explains
//! a pixel of its screen, and which letters are taken in it.
//!
//! A history is carried out once more, over parts of its own. Each entry is compared with the one
//! that its activity may make there, and is made where it is that one: its numbers are compared,
//! and nothing is done by them. So an entry costs what it costs in a run. No history is copied.
//! Whoever explains a pixel looks at it alone, and only behind commands and events; a look asks
//! which window owns the pixel, and then that window's pane.
#![tactic(auto)]

mod checking;
mod color;
mod explaining;
mod fault;
mod laws;
mod stepping;
mod taking;
mod watching;

pub use checking::check;
pub use explaining::{Explained, explain};
pub use fault::CheckFault;
pub use laws::{a_history_is_finished_or_illegal, the_entry_told_is_the_last_that_changed_a_pixel};
pub use taking::taken;

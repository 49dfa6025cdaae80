//! The screen and the traces of a run, told from its parts. Each pixel shows what the pane of its
//! window has, and where there is no window the desktop, whose pixels are counted too. A runner's
//! trace is what was noted in the part that keeps its entries.
//!
//! Cells are told by runs of spans. A call asks each pane once, by bisection, how many pixels of
//! the row it has none of, up to the pane that has the first. No pixel is looked at, and no cell
//! copied. The count of the desktop takes such a call for each run of a row, and no memory.
#![tactic(auto)]

mod desktop;
mod looks;
mod shown;
mod stretch;
mod traces;

pub use desktop::desktop_pixels;
pub use shown::Shown;
pub use traces::Traces;

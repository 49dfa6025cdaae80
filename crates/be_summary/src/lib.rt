//! What a run comes to, in five lines: how many entries its history has, how many of them executed
//! a command and how many took a letter, how many pixels no window owns, and how many colours its
//! screen shows.
//!
//! The entries are counted in one pass. The screen is asked once for cells that lie side by side,
//! each cell is looked at once, and each run of one colour is looked up once, at the cost of the
//! logarithm of the colours. There is memory for the colours and for the text alone.
#![tactic(auto)]

mod colors;
mod counts;
mod kinds;
mod law;
mod summing;

pub use counts::write_count;
pub use law::a_color_counts_once;
pub use summing::summary;

//! The report of the whole machine, and the history that a text tells.
//!
//! The report is put line by line, and its text is made before. A history is read in one pass over
//! its bytes, line by line. To find the name of a window or of an activity takes a look at each of
//! its kind.
#![tactic(auto)]

mod history;
mod kind;
mod laws;
mod line;
mod naming;
mod puts;
mod reading;
mod spaced;
mod whole;
mod word;

pub use history::read_history;
pub use laws::{
    a_history_is_told_by_its_text, a_report_tells_its_history,
    a_text_that_tells_none_breaks_at_a_line, an_entry_has_one_line,
};
pub use puts::put_lines;
pub use whole::{ReportFault, report};

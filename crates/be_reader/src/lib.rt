//! Reads scripts: which bytes are one, what it declares, and the first fault of all others.
#![tactic(auto)]

mod deeds;
mod fault;
mod law;
mod naming;
mod pixels;
mod reader;
mod reading;
mod screen;

pub use fault::ScriptFault;
pub use law::{
    a_faulty_line_is_the_first, a_lines_reason_stays, an_accepted_script_keeps_its_limits,
};
pub use reader::read;

//! The parts of the server: what each keeps of the machine's state, and the effects that entries
//! have on it.
//!
//! A part means a slice of the machine's state. Where its data tell the slice, as of an
//! application's place or of a link's commands, the slice is computed from them. A pane and a port
//! tell less: a region in bands doesn't say which rectangles were said, and a port forgets the
//! letters that were taken. They carry their slice as a value that only proofs see, and their
//! invariant says that the data stand for it.
#![tactic(auto)]

mod at;
mod cell;
mod desk;
mod in_hand;
mod input;
mod kinds;
mod link;
mod log;
mod looper;
mod meaning;
mod pane;
mod part;
mod port;
mod stage;

pub use at::{
    cell_at, cell_to_change, desk_at, desk_to_change, input_at, input_to_change, link_at,
    link_to_change, looper_at, looper_to_change, pane_at, pane_to_change, port_at, port_to_change,
};
pub use cell::CellPart;
pub use desk::DeskPart;
pub use in_hand::{
    cell_in_hand, desk_in_hand, input_in_hand, link_in_hand, looper_in_hand, pane_in_hand,
    port_in_hand,
};
pub use input::InputPart;
pub use link::LinkPart;
pub use log::Log;
pub use looper::LooperPart;
pub use meaning::Meaning;
pub use pane::PanePart;
pub use part::Part;
pub use port::PortPart;
pub use stage::Stage;

//! What an activity wants, and whether it may have it, told by the parts in hand.
//!
//! Some sound list of slices has these parts, and there may be many: an answer holds in each of
//! them. Asking takes a few steps: a look at one instruction, and at the fronts of a port and of a
//! link. An application that draws looks back through its program for its lock, and a looper looks
//! for its body among the script's. The closing activity looks at each part once. No pixel is
//! looked at. Memory is taken for the windows that a change or an event alters and for the messages
//! of an event, and for nothing else.
#![tactic(auto)]

mod activity;
mod acts;
mod answered;
mod answering;
mod apps;
mod ask;
mod asking;
mod bodies;
mod changing;
mod commands;
mod deed;
mod delivering;
mod ended;
mod ending;
mod executing;
mod finding;
mod having;
mod letters;
mod locking;
mod owned;
mod owning;
mod places;
mod posting;
mod programs;
mod quiet;
mod replying;
mod requests;
mod stirred;
mod stopping;
mod twins;
mod updating;
mod using;
mod want;

pub use activity::{Activity, Runner, activity_of};
pub use answering::may;
pub use ask::wanted;
pub use asking::may_ask;
pub use changing::may_change;
pub use commands::{may_end_drawing, may_flush};
pub use deed::{Answer, Deed};
pub use ending::may_end;
pub use executing::{Execution, may_execute};
pub use finding::{find_cell, find_desk, find_input, find_link, find_looper, find_pane, find_port};
pub use having::has_any;
pub use letters::may_take;
pub use owned::owned_window;
pub use places::{
    cell_place, desk_place, input_place, link_place, looper_place, pane_place, port_place,
};
pub use programs::{app_steps, body_step, step_at, update_step};
pub use requests::request;
pub use stopping::may_stop;
pub use updating::{may_begin, may_notify};
pub use using::may_use;
pub use want::{Request, Want, Wanted};

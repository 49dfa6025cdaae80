//! What an activity's entry makes of the parts in hand: one call for each kind of what is wanted.
//!
//! The memory for an entry is made before, and a step takes none. All that a step touches is in
//! hand when it begins, and whatever the other parts are, it leaves those in hand as the machine's
//! next state has them.
#![tactic(auto)]

mod commands;
mod drawing;
mod ending;
mod executing;
mod going;
mod input;
mod left;
mod locking;
mod noting;
mod own_window;
mod posting;
mod replying;
mod shown;
mod stopping;
mod taking;
mod there;
mod updating;
mod waiters;

pub use commands::{flush, flush_asked, sync};
pub use drawing::{draw, put_end};
pub use ending::end;
pub use executing::execute;
pub use input::{input_is_there, use_up};
pub use left::left_at;
pub use locking::{claim, lock, unlock};
pub use noting::note;
pub use posting::post;
pub use replying::reply;
pub use stopping::stop;
pub use taking::take;
pub use updating::{begin, notify};

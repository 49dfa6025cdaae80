//! What an entry needs is made before it, with the memory that it takes.
//!
//! Each call here looks at the parts in hand, which tell what an activity wants, and changes none
//! of them. What it makes is what a step takes, whatever the other parts are, so that the step
//! itself can't fail.
#![tactic(auto)]

mod chains;
mod drafts;
mod events;
mod front;
mod letters;
mod notices;
mod planning;
mod plans;
mod replies;
mod surveys;
mod there;

pub use chains::chains_of;
pub use events::delivered;
pub use front::message_in_front;
pub use letters::letter;
pub use notices::notice;
pub use planning::{Planning, planned};
pub use replies::reply_message;
pub use surveys::surveyed;

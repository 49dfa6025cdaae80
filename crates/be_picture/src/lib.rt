//! Pictures: drawing commands that are recorded, `BPicture`, their text, and what they draw on a
//! bitmap off the screen.
//!
//! A picture draws on one view, the one with the number 0. It has at most 4,096 commands, closes no
//! state that it didn't open, and has at most 15 states open. Its text has a line for each command.
//! It is played by the code of the twins, on a pane of one view that owns all of its pixels.
#![tactic(auto)]

mod blank;
mod fault;
mod laws;
mod off_fault;
mod off_screen;
mod picture;
mod playing;
mod reading;
mod recorder;
mod sorts;
mod writing;

pub use fault::{PictureFault, RecordFault};
pub use laws::{a_picture_is_read_back, playing_restores_the_states};
pub use off_fault::{IntoFault, OffFault};
pub use off_screen::OffScreen;
pub use picture::Picture;
pub use reading::read_picture;
pub use recorder::Recorder;
pub use writing::write_picture;

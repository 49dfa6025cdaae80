//! The sheet of a picture: it is drawn on white pixels, which are written as a report's screen is.
//!
//! It takes memory for each pixel, and the time of the picture's commands and of the text.
#![tactic(auto)]

mod drawing;
mod sheet;

pub use drawing::draw;

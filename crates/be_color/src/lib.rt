//! Colours, drawing modes and patterns, and what a drawing command makes of one pixel.
//!
//! `Pattern::bit` says which colour a pixel is drawn with, `pick` gives that colour, and `blend`
//! joins it to the colour that the pixel has. Each takes constant time and no memory, so that a
//! painter may call it for each pixel.
#![tactic(auto)]

mod colors;
mod modes;
mod patterns;
mod pixels;

pub use colors::{Color, Rgb};
pub use modes::Mode;
pub use patterns::Pattern;
pub use pixels::{blend, pick};

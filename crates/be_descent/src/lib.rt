//! Where a view may draw, taken apart into rectangles all of which may be painted.
//!
//! A descent goes through stages, each of which hands rectangles on to the next one: the spans of
//! the buffer (`paint_area`), what is in none of the frames in front (`Below`), each clip (`Clips`)
//! and the session (`Session`). It ends with an `Ink`, which paints a rectangle and asks nothing
//! more. A stage is a type that implements `Lay`. Its test says at which pixels it paints; that of
//! a whole descent is what the tests of its stages come to together.
//!
//! What an ink paints are a pattern's colours in a drawing mode (`Coat`), a picture (`Image`) and
//! seven rows of 64 bits, as for letters (`Letters`), or one colour (`be_span::Fill`). `Held` holds
//! them to a shape.
//!
//! `Fronts::find` finds the frames in front of a view, and `paint_reached` is the descent for a
//! view. `paint_rect` is that of a rectangle that lies anywhere, `paint_bands` and `paint_line` are
//! those of a shape, by rectangles that have its pixels, `paint_image` is that of a picture, and
//! `paint_letters` that of letters. Other rectangles are in screen coordinates. A stage over a
//! region finds its rectangles by bisection where they don't follow one another; that over frames
//! goes once over those in front, and cuts at the edges of those that are met. No call takes
//! memory, and none but the ink looks at a pixel.
#![tactic(auto)]

mod altering;
mod area;
mod bands;
mod below;
mod boxed;
mod clipping;
mod clips;
mod coat;
mod cutting;
mod descending;
mod far;
mod fronts;
mod halving;
mod held;
mod image;
mod ink;
mod laying;
mod letters;
mod line;
mod marks;
mod nest;
mod part;
mod put;
mod reach;
mod reading;
mod rows;
mod session;
mod shown;
mod taken;
mod thin;
mod walk;
mod way;
mod within;

pub use altering::Altering;
pub use area::paint_area;
pub use bands::paint_bands;
pub use below::Below;
pub use boxed::paint_rect;
pub use clips::Clips;
pub use coat::Coat;
pub use fronts::Fronts;
pub use halving::halves_of;
pub use held::Held;
pub use image::{Image, paint_image};
pub use ink::Ink;
pub use laying::Lay;
pub use letters::{Letters, paint_letters};
pub use line::paint_line;
pub use marks::marks_stay;
pub use nest::{Limits, paint_within};
pub use part::part_in;
pub use put::Put;
pub use reach::{Reach, paint_reached};
pub use reading::{Source, read};
pub use session::Session;
pub use way::Way;
pub use within::Within;

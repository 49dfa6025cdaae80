//! Sets of pixels, as `BRegion` keeps them.
//!
//! A region holds any set of pixels whose coordinates lie in -32768 to 32767, as canonical bands: a
//! band is a range of rows with equal spans of columns, the spans of a band go right without
//! touching one another, the bands go down, and bands that touch have different spans. So a set has
//! one list of rectangles, whatever way it was made.
//!
//! No call goes pixel by pixel. `include` and `exclude` copy the bands that touch no row of the
//! other region, which are found by bisection, and go down the other bands of both once;
//! `intersect` goes down all. The rows are taken in strips, as far as both have the same spans. A
//! strip costs a few steps for each span of the two bands there, or of the result alone where one
//! of them has all columns of the other in one span. So a band of n spans that has its rows in
//! common with m bands of the other region, which cover it in part, costs n times m steps, also
//! where the result has few rectangles. Each takes the memory of the result, which has room for at
//! most 16 rectangles more or for twice its own, and two lines of spans, which allocate nothing up
//! to 8 spans. `contains`, `run_at` and `span_at` find their rectangle by bisection, and `count`
//! and `rect_at` take a constant number of steps. Every other call takes a few steps for each
//! rectangle.
#![tactic(auto)]

mod bands;
mod edges;
mod law;
mod line;
mod merge;
mod parts;
mod place;
mod region;
mod rows;
mod rule;
mod span;
mod walk;

pub use law::same_pixels_same_bands;
pub use region::Region;

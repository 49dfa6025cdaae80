use thiserror::Error;

/// A coordinate would leave -32768 to 32767.
#[derive(Clone, Copy, Debug, PartialEq, Eq, Error)]
#[error("a coordinate is out of range")]
pub struct OutOfRange;

/// A pixel of the screen, a window or a view: `BPoint` in whole numbers.
#[derive(Clone, Copy, Debug, PartialEq, Eq)]
pub struct Point {
    /// How far right.
    pub x: i16,
    /// How far down.
    pub y: i16,
}

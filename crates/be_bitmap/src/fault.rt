use be_color::Color;
use thiserror::Error;

/// Why pixels are no bitmap; they are handed back.
#[derive(Debug, Drop, Error)]
pub enum BitmapFault {
    /// A side is above 256.
    #[error("a side above 256")]
    TooLarge(Vec<Color>),
    /// There are more or fewer pixels than the sides say.
    #[error("another number of pixels")]
    WrongLength(Vec<Color>),
}

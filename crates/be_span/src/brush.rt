ghost use Rattle.std.specs.Prelude.{◌≡◌};
ghost use Rattle.be_span.specs.Slices.{replaces};

use be_color::{Color, Mode};

/// With what a view paints: its mode and its colours.
#[derive(Clone, Copy, Debug, PartialEq, Eq)]
pub struct Brush {
    pub mode: Mode,
    pub high: Color,
    pub low: Color,
}

impl Brush {
    /// Gives a pixel a colour whatever it had.
    pub const PLAIN: Brush = Brush {
        mode: Mode::Copy,
        high: Color::Clear,
        low: Color::Clear,
    };

    /// Whether the painted colour takes the place of the pixel's, whatever that is.
    pub fn replaces(self) -> bool
        ensures { result ≡ replaces self.mode }
    {
        match self.mode {
            Mode::Copy | Mode::Over => true,
            Mode::Erase
            | Mode::Invert
            | Mode::Add
            | Mode::Subtract
            | Mode::Blend
            | Mode::Min
            | Mode::Max
            | Mode::Select => false,
        }
    }
}

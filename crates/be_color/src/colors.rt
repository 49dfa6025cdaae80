ghost use Rattle.std.specs.Prelude.{◌≡◌};
ghost use Rattle.be_color.specs.Color.{rgba_of};
ghost use Rattle.be_color.specs.Pixel.{laid_on};

/// The colour of a pixel, 24 bits. It is never transparent.
#[derive(Clone, Copy, Debug, PartialEq, Eq)]
pub struct Rgb {
    pub red: u8,
    pub green: u8,
    pub blue: u8,
}

impl Rgb {
    /// No part of any colour.
    pub const BLACK: Rgb = Rgb {
        red: 0,
        green: 0,
        blue: 0,
    };

    /// All of each colour.
    pub const WHITE: Rgb = Rgb {
        red: 255,
        green: 255,
        blue: 255,
    };

    /// What shows where no window is.
    pub const DESKTOP: Rgb = Rgb {
        red: 0x33,
        green: 0x66,
        blue: 0x98,
    };

    /// `join` of this colour's component and the other's, for each of the three.
    pub(crate) fn with_each<F: Fn(u8, u8) -> u8>(self, other: Rgb, join: F) -> Rgb
        requires { F.IsAlwaysCallable join }
        ensures red { F.post join self.red other.red result.red }
        ensures green { F.post join self.green other.green result.green }
        ensures blue { F.post join self.blue other.blue result.blue }
    {
        Rgb {
            red: join(self.red, other.red),
            green: join(self.green, other.green),
            blue: join(self.blue, other.blue),
        }
    }
}

/// A colour to draw with, of a view or of a bitmap's pixel: `rgb_color` of the Be Book.
///
/// `Clear` is `B_TRANSPARENT_COLOR`. `Solid` of the same red, green and blue is an ordinary colour.
#[derive(Clone, Copy, Debug, PartialEq, Eq)]
pub enum Color {
    Solid(Rgb),
    Clear,
}

impl Color {
    /// The red, green, blue and alpha of the Be Book's `rgb_color`.
    pub fn rgba(self) -> (u8, u8, u8, u8)
        ensures { result ≡ rgba_of self }
    {
        match self {
            Color::Solid(rgb) => (rgb.red, rgb.green, rgb.blue, 255),
            Color::Clear => (0x77, 0x74, 0x77, 0),
        }
    }

    /// What a pixel shows once this colour is laid on it.
    pub(crate) fn laid_on(self, pixel: Rgb) -> Rgb
        ensures { result ≡ laid_on self pixel }
    {
        match self {
            Color::Solid(rgb) => rgb,
            Color::Clear => pixel,
        }
    }
}

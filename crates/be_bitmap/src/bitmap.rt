ghost use Rattle.std.specs.Prelude.{◌≡◌, ℕ, pos, ◌+◌, ◌-◌, nat_lt, length, slice_get};
ghost use Rattle.std.specs.Prelude.{if◌then◌else◌, IfOk, IfErr};
ghost use Rattle.be_bitmap.specs.Pictures.{bitmap_pixel};

use crate::fault::BitmapFault;
use be_color::Color;
use std::marker::Model;

/// The longest side.
const MAX_SIDE: u16 = 256;

/// A picture, its rows from the top: `BBitmap`. A pixel may be transparent.
#[derive(Debug, Drop)]
pub struct Bitmap {
    width: u16,
    height: u16,
    pixels: Vec<Color>,
}

impl Model for Bitmap {
    ghost use Rattle.be_bitmap.specs.Pictures.{Picture};
    ghost use Rattle.be_bitmap.specs.Sides.{IsPicture};

    ghost Value = { Picture };

    ghost view = { λ b. record { width = b.width; height = b.height; colors = b.pixels.items } };

    ghost invariant = { λ b. IsPicture record {
      width = b.width;
      height = b.height;
      colors = b.pixels.items;
    } };
}

impl Bitmap {
    ghost use Rattle.be_bitmap.specs.Sides.{IsPicture, IsRefused};

    /// A bitmap of these pixels, row by row from the top and each row from the left.
    pub fn new(width: u16, height: u16, pixels: Vec<Color>) -> Result<Bitmap, BitmapFault>
        ensures made { IfOk result
            (λ bitmap. bitmap ≡ record { width = width; height = height; colors = pixels.items }) }
        ensures picture { IfOk result (λ bitmap. IsPicture bitmap) }
        ensures refused { IfErr result (λ fault. IsRefused fault width height pixels.items) }
    {
        if MAX_SIDE < width || MAX_SIDE < height {
            return Err(BitmapFault::TooLarge(pixels));
        }
        if pixels.len() != usize::from(width) * usize::from(height) {
            return Err(BitmapFault::WrongLength(pixels));
        }
        Ok(Bitmap {
            width,
            height,
            pixels,
        })
    }

    /// How many columns there are.
    pub fn width(&self) -> u16
        ensures width { result ≡ self.now.width }
        ensures picture { IsPicture self.now }
    {
        self.width
    }

    /// How many rows there are.
    pub fn height(&self) -> u16
        ensures height { result ≡ self.now.height }
        ensures picture { IsPicture self.now }
    {
        self.height
    }

    /// The colour at a column and a row, counted from 0. None outside the bitmap.
    pub fn pixel(&self, x: i32, y: i32) -> Option<Color>
        ensures { result ≡ bitmap_pixel self.now x y }
    {
        if x < 0 || y < 0 {
            return None;
        }
        self.row_from(y as usize, x as usize).first().copied()
    }

    /// The pixels of a row from a column on, as far as the bitmap goes; none outside it.
    pub fn row_from(&self, row: usize, column: usize) -> &[Color]
        ensures pixels { (k : ℕ) → slice_get result.now k
            ≡ bitmap_pixel self.now (pos (column + k)) (pos row) }
        ensures len { length result.now
            ≡ (if nat_lt row self.now.height then self.now.width - column else 0) }
    {
        let width = usize::from(self.width);
        if row < usize::from(self.height) && column < width {
            let start = row * width;
            &self.pixels[start + column..start + width]
        } else {
            &[]
        }
    }
}

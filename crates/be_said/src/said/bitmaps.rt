ghost use Rattle.std.specs.Prelude.{◌≡◌, ◌<◌, ◌++◌, ◌∷◌, [], Ok, length};
ghost use Rattle.be_said.specs.Due.{IsDue};
ghost use Rattle.be_said.specs.Fits.{Fits, IsNew};
ghost use Rattle.be_said.specs.Deeds.{adds_row, begins_bitmap};
ghost use Rattle.be_said.specs.Judging.{done, with_colors};
ghost use Rattle.be_said.specs.Inside.{HasRows};
ghost use Rattle.be_said.specs.SoFar.{bitmap_names, nothing};

use super::{SoFar, everywhere};
use crate::begun::Begun;
use crate::fault::LineFault;
use be_bitmap::Bitmap;
use be_color::Color;
use be_command::Reason;
use be_message::Text;
use be_script::BitmapLine;
use std::alloc::Global;
use std::mem;

const BITMAPS: usize = 64;

impl SoFar {
    pub(super) fn begin_bitmap(
        mut self,
        alloc: Global,
        name: Text,
        width: u16,
        height: u16,
    ) -> Result<SoFar, LineFault>
        requires { Fits self (begins_bitmap name width height) }
        ensures { IsDue (done self (begins_bitmap name width height)) result }
    {
        if self.bitmaps.len() >= BITMAPS {
            return Err(LineFault::Bad(Reason::TooMany));
        }
        self.begun = Begun::Bitmap {
            name,
            width,
            height,
            colors: Vec::new(alloc),
        };
        Ok(self)
    }

    pub(super) fn add_row(mut self, mut row: Vec<Color>) -> Result<SoFar, LineFault>
        requires { Fits self (adds_row row.items) }
        ensures { IsDue (done self (adds_row row.items)) result }
    {
        match mem::replace(&mut self.begun, Begun::Nothing) {
            Begun::Bitmap {
                name,
                width,
                height,
                mut colors,
            } => {
                colors.append(&mut row)?;
                self.with_colors(name, width, height, colors)
            }
            Begun::Nothing
            | Begun::HandlerBody { .. }
            | Begun::DrawBody { .. }
            | Begun::Program { .. } => unreachable!(),
        }
    }

    /// With these rows of the bitmap that was begun; the last one ends it.
    fn with_colors(
        mut self,
        name: Text,
        width: u16,
        height: u16,
        colors: Vec<Color>,
    ) -> Result<SoFar, LineFault>
        requires { HasRows self name width height colors.items }
        ensures { IsDue (Ok (with_colors self name width height colors.items)) result }
    {
        if colors.len() < usize::from(width) * usize::from(height) {
            self.begun = Begun::Bitmap {
                name,
                width,
                height,
                colors,
            };
            return Ok(self);
        }
        let Ok(bitmap) = Bitmap::new(width, height, colors) else {
            unreachable!()
        };
        self.add_bitmap(BitmapLine { name, bitmap })
    }

    fn add_bitmap(mut self, line: BitmapLine) -> Result<SoFar, LineFault>
        requires free { self.begun ≡ nothing }
        requires room { length self.bitmaps < 64 }
        requires new { IsNew (bitmap_names self) line.name }
        ensures { IsDue (Ok (record self { bitmaps = self.bitmaps ++ line ∷ [] })) result }
    {
        everywhere::add_bitmap(&mut self.inside, &line.name)?;
        self.bitmaps.push(line)?;
        Ok(self)
    }
}

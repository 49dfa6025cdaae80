ghost use Rattle.std.specs.Prelude.{◌≡◌, ◌↔◌, ◌++◌, ◌<◌, ◌*◌, All, IfErr, IfOk, IsSome, None};
ghost use Rattle.std.specs.Prelude.{OnOk, drop, length, map, take, true};
ghost use Rattle.be_color.specs.declared.colors.Color.TheVariants.{Solid};
ghost use Rattle.be_command.specs.Effects.{effect_of};
ghost use Rattle.be_geom.specs.Rects.{rect_has};
ghost use Rattle.be_twin.specs.Judged.{HasPen};
ghost use Rattle.be_picture.specs.OffFaults.{IsOffFault, size_fault};
ghost use Rattle.be_picture.specs.OffScreens.{IsRow};
ghost use Rattle.be_picture.specs.Playing.{bitmap_of, blank, bounds, pixel_at, played_on};

use crate::blank::blank_pane;
use crate::off_fault::{IntoFault, OffFault};
use crate::picture::Picture;
use crate::playing::{execute, execute_all, pop_all};
use be_bitmap::Bitmap;
use be_color::{Color, Rgb};
use be_command::Command;
use be_geom::NoMemory;
use be_pane::Pane;
use be_span::{Cell, SpanBuf};
use std::alloc::Global;
use std::marker::Model;

/// The longest side.
const MOST_PIXELS: u16 = 256;

/// A bitmap off the screen, on which pictures are played: a `BBitmap` that accepts views. It has
/// one view, which covers it.
#[derive(Debug, Drop)]
pub struct OffScreen {
    width: u16,
    height: u16,
    pane: Pane,
}

impl Model for OffScreen {
    ghost use Rattle.be_picture.specs.OffScreens.{IsAtRest, seen_as};
    ghost use Rattle.be_picture.specs.Playing.{OffScreen as OffScreenOf};

    ghost Value = { OffScreenOf };

    ghost view = { λ off. seen_as off.width off.height off.pane };

    ghost invariant = { λ off. IsAtRest off.width off.height off.pane };
}

impl OffScreen {
    /// White pixels. It takes memory for each pixel.
    pub fn new(alloc: Global, width: u16, height: u16) -> Result<OffScreen, OffFault>
        ensures blank { IfOk result (λ off. off ≡ blank width height) }
        ensures size { IfOk result (λ _. size_fault width height ≡ None) }
        ensures fault { IfErr result (λ fault. IsOffFault fault (size_fault width height)) }
    {
        if width == 0 || height == 0 {
            return Err(OffFault::Empty);
        }
        if width > MOST_PIXELS || height > MOST_PIXELS {
            return Err(OffFault::TooLarge);
        }
        match blank_pane(alloc, width, height) {
            Ok(pane) => Ok(OffScreen {
                width,
                height,
                pane,
            }),
            Err(NoMemory) => Err(OffFault::NoMemory),
        }
    }

    /// Draws a picture by the code of the twins, behind a push and with as many pops as give back
    /// what it and the picture saved. A command costs what it costs a twin. It takes no memory.
    pub fn play(&mut self, picture: Picture, bitmaps: &[Bitmap])
        requires { All (λ c. HasPen (effect_of c)) picture }
        ensures played { self.new ≡ played_on bitmaps.now self.old picture }
        ensures stacks { self.new.pane.stacks ≡ self.old.pane.stacks }
    {
        let pane = &mut self.pane;
        let pushes = picture.pushes();
        execute(pane, Command::Push(0), bitmaps);
        execute_all(pane, picture.into_commands(), bitmaps);
        pop_all(pane, pushes, bitmaps);
        execute(pane, Command::Pop(0), bitmaps);
    }

    /// How many pixels stand side by side.
    pub fn width(&self) -> u16
        ensures { result ≡ self.now.width }
    {
        self.width
    }

    /// How many rows of pixels there are.
    pub fn height(&self) -> u16
        ensures { result ≡ self.now.height }
    {
        self.height
    }

    /// The cells of a row, from its left.
    pub fn row(&self, y: u16) -> &[Cell]
        requires { y < self.now.height }
        ensures cells { let width = self.now.width in
            result.now ≡ take width (drop (y * width) self.now.cells) }
        ensures whole { length result.now ≡ self.now.width }
    {
        row_of(&self.pane.spans, y)
    }

    /// The colour of a pixel. None outside.
    pub fn pixel(&self, x: i32, y: i32) -> Option<Rgb>
        ensures pixel { result ≡ pixel_at self.now x y }
        ensures inside { IsSome result ↔ (rect_has (bounds self.now) x y ≡ true) }
    {
        let cell = self.pane.spans.get(x, y)?;
        Some(cell.rgb)
    }

    /// Its pixels as a bitmap.
    pub fn into_bitmap(self) -> Result<Bitmap, IntoFault>
        ensures bitmap { IfOk result (λ bitmap. bitmap ≡ bitmap_of self) }
        ensures fault { IfErr result (λ fault. fault ≡ IntoFault.NoMemory self) }
    {
        match self.colors() {
            Ok(colors) => Ok(Bitmap::new(self.width, self.height, colors).unwrap()),
            Err(NoMemory) => Err(IntoFault::NoMemory(self)),
        }
    }

    /// The colours of all pixels, row by row.
    fn colors(&self) -> Result<Vec<Color>, NoMemory>
        ensures { IfOk result (λ colors. colors.items ≡ map (λ c. Solid c.rgb) self.now.cells) }
    {
        let mut colors = Vec::new(*self.pane.colors.allocator());
        for y in 0..self.height {
            push_colors(&mut colors, row_of(&self.pane.spans, y))?;
        }
        Ok(colors)
    }
}

/// The cells of a row.
fn row_of(spans: &SpanBuf, y: u16) -> &[Cell]
    ensures { IsRow spans.now y result.now }
{
    spans.row_from(0, i32::from(y))
}

fn push_colors(colors: &mut Vec<Color>, cells: &[Cell]) -> Result<(), NoMemory>
    ensures { OnOk result (colors.new.items ≡ colors.old.items
        ++ map (λ c. Solid c.rgb) cells.now) }
{
    for cell in cells {
        colors.push(Color::Solid(cell.rgb))?;
    }
    Ok(())
}

ghost use Rattle.std.specs.Prelude.{◌≡◌, All, IfOk};
ghost use Rattle.be_command.specs.Effects.{effect_of};
ghost use Rattle.be_picture.specs.OffScreens.{IsSized};
ghost use Rattle.be_sheet.specs.Sheets.{picture_screen};
ghost use Rattle.be_twin.specs.Judged.{HasPen};

use crate::sheet::Sheet;
use be_geom::NoMemory;
use be_picture::{OffScreen, Picture};
use be_written::{Page, write_screen};
use std::alloc::Global;

/// Draws a picture on white pixels, at least one and at most 256 in each direction, and writes
/// them: their numbers, the rows by runs of one colour, and `end`.
pub fn draw(alloc: Global, picture: Picture, width: u16, height: u16) -> Result<Page, NoMemory>
    requires sized { IsSized width height }
    requires pens { All (λ c. HasPen (effect_of c)) picture }
    ensures { IfOk result (λ page. page ≡ picture_screen picture width height) }
{
    let Ok(mut off) = OffScreen::new(alloc, width, height) else {
        return Err(NoMemory);
    };
    off.play(picture, &[]);
    let mut page = Page::new(alloc);
    write_screen(&mut page, &Sheet { off: &off })?;
    page.text(b"end")?;
    page.end_line()?;
    Ok(page)
}

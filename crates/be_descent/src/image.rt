ghost use Rattle.std.specs.Prelude.{◌≡◌, ◌<◌, ℤ, true, ◌&&◌, length};
ghost use Rattle.be_geom.specs.Places.{IsNear};
ghost use Rattle.be_span.specs.Slices.{painted};
ghost use Rattle.be_descent.specs.Drawing.{may_draw};
ghost use Rattle.be_descent.specs.Inks.{frame_of, picture_color};
ghost use Rattle.be_span.specs.Painting.{IsPainted};
ghost use Rattle.be_descent.specs.Places.{has_moved};

use crate::boxed::paint_rect;
use crate::far::around;
use crate::ink::Ink;
use crate::reach::Reach;
use crate::way::Way;
use be_bitmap::Bitmap;
use be_geom::Rect;
use be_span::{Brush, Cell, Paint, SpanBuf, paint_colors};

/// A mode joins to each pixel in a picture the colour that the picture has there. A pixel stays
/// where the picture is transparent.
#[derive(Clone, Copy)]
pub struct Image<'a> {
    pub brush: Brush,
    pub bitmap: &'a Bitmap,
    /// Where the picture's left top is on the screen.
    pub way: Way,
}

impl Paint for Image<'_> {
    ghost rule = { λ s x y. painted s.brush (picture_color s.bitmap.now s.way x y) };

    ghost at = { λ s x y. true };

    #[inline(always)]
    fn paint(&self, cells: &mut [Cell], x: i32, y: i32, _clean: bool) {
        let (row, above) = around(self.way.down, y);
        let (column, before) = around(self.way.right, x);
        if above == 0 {
            let colors = self.bitmap.row_from(row, column);
            paint_colors(cells, before, self.brush, colors);
        }
    }
}

/// Paints the pixels of a picture on which a view may draw, as far as the buffer has them. Besides
/// the descent it goes once over the rectangles of the buffer's region.
pub fn paint_image(spans: &mut SpanBuf, image: &Image<'_>, reach: &Reach<'_>)
    requires view { reach.now.view < length reach.now.tree.now }
    requires corner { IsNear 64 reach.now.corner.right × IsNear 64 reach.now.corner.down }
    ensures { IsPainted
        (λ x y. painted image.now.brush (picture_color image.now.bitmap.now image.now.way x y))
        (λ x y. has_moved (frame_of image.now.bitmap.now) image.now.way x y
        && may_draw reach.now x y) spans.old spans.new }
{
    let rect = frame_of(image.bitmap);
    paint_rect(spans, rect, image.way, reach, &Ink { paint: *image });
}

/// The rectangle of a picture whose left top is at (0, 0).
fn frame_of(bitmap: &Bitmap) -> Rect
    ensures { result ≡ frame_of bitmap.now }
{
    Rect {
        left: 0,
        top: 0,
        right: bitmap.width() as i16 - 1,
        bottom: bitmap.height() as i16 - 1,
    }
}

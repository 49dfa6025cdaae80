use be_bitmap::Bitmap;
use be_color::Pattern;
use be_geom::Point;
use be_shape::Raster;

/// What a drawing command lays on the pixels. Each pixel is painted once.
#[derive(Clone, Copy)]
pub enum Ink<'a> {
    /// A shape, in drawing coordinates, whose colours a pattern picks.
    Shape(Raster, Pattern),
    /// Glyphs of the high colour, from the pen on: `BView::DrawString`.
    Text(&'a [u8]),
    /// A picture, its left top at a point in drawing coordinates: `BView::DrawBitmap`.
    Image(&'a Bitmap, Point),
}

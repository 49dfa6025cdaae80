ghost use Rattle.std.specs.Prelude.{◌≡◌, ◌<◌, ◌&&◌, length};
ghost use Rattle.be_geom.specs.Places.{IsNear};
ghost use Rattle.be_geom.specs.Rects.{rect_has};
ghost use Rattle.be_span.specs.Painting.{IsPainted};
ghost use Rattle.be_span.specs.Slices.{painted};
ghost use Rattle.be_descent.specs.Drawing.{may_draw};
ghost use Rattle.be_descent.specs.Inks.{masks_have};

use crate::boxed::paint_boxed;
use crate::far::around;
use crate::ink::Ink;
use crate::reach::Reach;
use crate::way::Way;
use be_color::Color;
use be_geom::Rect;
use be_span::{Brush, Cell, Paint, SpanBuf, paint_marked};

/// The pixels that the masks have a bit for, counted from the first.
const BITS: Rect = Rect {
    left: 0,
    top: 0,
    right: 63,
    bottom: 6,
};

/// A mode joins a colour to each pixel whose bit of its row's mask is set, as for letters of a
/// text. There is a mask for each of seven rows, and the highest bit is for the leftmost of 64
/// columns. It takes a few steps for each row and each set bit. In Copy and in Over no cell is read
/// where no pixel is dirty.
#[derive(Clone, Copy)]
pub struct Letters<'a> {
    pub brush: Brush,
    pub color: Color,
    pub masks: &'a [u64; 7],
    /// Where on the screen the pixel of the first mask's highest bit is.
    pub way: Way,
}

impl Paint for Letters<'_> {
    ghost rule = { λ s x y. painted s.brush s.color };

    ghost at = { λ s x y. masks_have s.masks.now s.way x y };

    #[inline(always)]
    fn paint(&self, cells: &mut [Cell], x: i32, y: i32, clean: bool) {
        let (row, above) = around(self.way.down, y);
        let (column, before) = around(self.way.right, x);
        if above == 0 && row < 7 && column < 64 {
            let mask = self.masks[row] << column;
            paint_marked(cells, before, self.brush, self.color, mask, clean);
        }
    }
}

/// Paints the pixels of an area whose bit is set and on which a view may draw, as far as the buffer
/// has them.
pub fn paint_letters(spans: &mut SpanBuf, area: Rect, letters: &Letters<'_>, reach: &Reach<'_>)
    requires view { reach.now.view < length reach.now.tree.now }
    requires corner { IsNear 64 reach.now.corner.right × IsNear 64 reach.now.corner.down }
    ensures { IsPainted (λ x y. painted letters.now.brush letters.now.color)
        (λ x y. rect_has area x y && (masks_have letters.now.masks.now letters.now.way x y
        && may_draw reach.now x y)) spans.old spans.new }
{
    paint_boxed(
        spans,
        area,
        BITS,
        letters.way,
        reach,
        &Ink { paint: *letters },
    );
}

ghost use Rattle.std.specs.Prelude.{◌≡◌, ◌<◌, ℤ, pos, ◌+ℤ◌, ◌-ℤ◌, ◌≤ℤ◌, true, ◌&&◌, length};
ghost use Rattle.be_descent.specs.Drawing.{may_draw};
ghost use Rattle.be_span.specs.Painting.{IsPainted};
ghost use Rattle.be_geom.specs.Places.{IsNear};
ghost use Rattle.be_geom.specs.Points.{between};
ghost use Rattle.be_geom.specs.Rects.{rect_has};
ghost use Rattle.be_paint.specs.Laying.{text_at};
ghost use Rattle.be_span.specs.Slices.{painted};

use crate::glyphs::{ASCENT, COLUMNS, end_of, masks_at};
use be_color::Color;
use be_descent::{Letters, Reach, Way, paint_letters};
use be_geom::{Point, Rect};
use be_span::{Brush, SpanBuf};

/// Glyphs from a pen on, in drawing coordinates.
#[derive(Clone, Copy)]
pub(crate) struct Text<'a> {
    pub codes: &'a [u8],
    pub pen: Point,
    /// Where drawing counts from on the screen.
    pub way: Way,
    pub brush: Brush,
    pub color: Color,
}

/// Draws a text: for each 64 columns, the seven rows of the glyphs there at once.
pub(crate) fn paint_text(spans: &mut SpanBuf, text: &Text<'_>, reach: &Reach<'_>)
    requires view { reach.now.view < length reach.now.tree.now }
    requires corner { IsNear 64 reach.now.corner.right × IsNear 64 reach.now.corner.down }
    requires near { IsNear 60 text.now.way.right × IsNear 60 text.now.way.down }
    ensures { IsPainted (λ x y. painted text.now.brush text.now.color)
        (λ x y. text_at text.now x y && may_draw reach.now x y) spans.old spans.new }
{
    let Some(frame) = spans.region().frame() else {
        return;
    };
    let (first, last) = columns_in(text, frame);
    let mut x = first;
    'columns: while x <= last {
        paint_columns(spans, frame, text, x, reach);
        x += COLUMNS;
    }
}

/// From which to which column of drawing the text may have pixels of an area. It has none where
/// the last one comes first.
fn columns_in(text: &Text<'_>, area: Rect) -> (i32, i32)
    requires { IsNear 60 text.now.way.right }
    ensures near { IsNear 62 result.0 × IsNear 62 result.1 }
    ensures within { (x y : ℤ) → rect_has area x y ≡ true → text_at text.now x y ≡ true
        → (result.0 ≤ℤ (x -ℤ text.now.way.right)) × ((x -ℤ text.now.way.right) ≤ℤ result.1) }
{
    let Text {
        codes,
        pen,
        way,
        ..
    } = *text;
    let first = i32::from(pen.x).max(i32::from(area.left) - way.right);
    let last = end_of(codes, pen).min(i32::from(area.right) - way.right);
    (first, last)
}

/// Draws those of 64 columns of drawing, from one on, as far as an area has them.
fn paint_columns(spans: &mut SpanBuf, area: Rect, text: &Text<'_>, x: i32, reach: &Reach<'_>)
    requires view { reach.now.view < length reach.now.tree.now }
    requires corner { IsNear 64 reach.now.corner.right × IsNear 64 reach.now.corner.down }
    requires near { IsNear 60 text.now.way.right × IsNear 60 text.now.way.down }
    requires column { IsNear 62 x }
    ensures { IsPainted (λ u v. painted text.now.brush text.now.color)
        (λ u v. rect_has area u v && (between x (u -ℤ text.now.way.right) (x +ℤ pos 63)
        && (text_at text.now u v && may_draw reach.now u v))) spans.old spans.new }
{
    let Text {
        codes,
        pen,
        way,
        brush,
        color,
    } = *text;
    let masks = masks_at(codes, pen, x);
    let letters = Letters {
        brush,
        color,
        masks: &masks,
        way: Way {
            right: way.right + x,
            down: way.down + i32::from(pen.y) - ASCENT,
        },
    };
    paint_letters(spans, area, &letters, reach);
}

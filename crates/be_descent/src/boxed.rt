ghost use Rattle.std.specs.Prelude.{◌<◌, ℤ, ◌&&◌, length};
ghost use Rattle.be_geom.specs.Places.{IsNear};
ghost use Rattle.be_geom.specs.Rects.{rect_has};
ghost use Rattle.be_descent.specs.Drawing.{may_draw};
ghost use Rattle.be_span.specs.Painting.{IsPainted};
ghost use Rattle.be_descent.specs.Places.{has_moved};

use crate::laying::Lay;
use crate::part::part_in;
use crate::reach::{Reach, paint_reached};
use crate::way::Way;
use be_geom::Rect;
use be_span::SpanBuf;

/// Paints the pixels of an area on which a view may draw and that a rectangle has, which lies that
/// way.
pub(crate) fn paint_boxed<L: Lay>(
    spans: &mut SpanBuf,
    area: Rect,
    rect: Rect,
    way: Way,
    reach: &Reach<'_>,
    ink: &L,
)
    requires view { reach.now.view < length reach.now.tree.now }
    requires corner { IsNear 64 reach.now.corner.right × IsNear 64 reach.now.corner.down }
    ensures { IsPainted (L.rule ink.now) (λ x y. rect_has area x y && (has_moved rect way x y
        && (may_draw reach.now x y && L.at ink.now x y))) spans.old spans.new }
{
    if let Some(part) = part_in(area, rect, way) {
        paint_reached(spans, part, reach, ink);
    }
}

/// Paints the pixels of a rectangle, which lies that way on the screen, on which a view may draw, as
/// far as the buffer has them. Besides the descent it goes once over the rectangles of the buffer's
/// region.
pub fn paint_rect<L: Lay>(spans: &mut SpanBuf, rect: Rect, way: Way, reach: &Reach<'_>, ink: &L)
    requires view { reach.now.view < length reach.now.tree.now }
    requires corner { IsNear 64 reach.now.corner.right × IsNear 64 reach.now.corner.down }
    ensures { IsPainted (L.rule ink.now) (λ x y. has_moved rect way x y
        && (may_draw reach.now x y && L.at ink.now x y)) spans.old spans.new }
{
    if let Some(frame) = spans.region().frame() {
        paint_boxed(spans, frame, rect, way, reach, ink);
    }
}

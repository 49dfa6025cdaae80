ghost use Rattle.std.specs.Prelude.{◌<◌, ℤ, ◌-ℤ◌, ◌≤ℤ◌, ◌&&◌, length};
ghost use Rattle.be_geom.specs.Places.{IsNear};
ghost use Rattle.be_geom.specs.Points.{between};
ghost use Rattle.be_geom.specs.Rects.{rect_has};
ghost use Rattle.be_shape.specs.Rows.{row_has, span_has, IsRow};
ghost use Rattle.be_descent.specs.Drawing.{may_draw};
ghost use Rattle.be_descent.specs.Inks.{shape_has};
ghost use Rattle.be_span.specs.Painting.{IsPainted};

use crate::far::down_to;
use crate::laying::Lay;
use crate::part::columns_in;
use crate::reach::{Reach, paint_reached};
use crate::rows::rows_in;
use crate::way::Way;
use be_geom::Rect;
use be_shape::{Raster, Row, Span as Columns};
use be_span::SpanBuf;

/// Paints the pixels of a shape on which a view may draw, as far as the buffer has them. The shape
/// lies that way on the screen. There is a descent for each run of rows that have the same columns:
/// one for a filled rectangle, four for a frame, and one for each row of a line, for which
/// `paint_line` takes fewer. Besides them it goes once over the rectangles of the buffer's region.
pub fn paint_bands<L: Lay>(
    spans: &mut SpanBuf,
    raster: &Raster,
    way: Way,
    reach: &Reach<'_>,
    ink: &L,
)
    requires view { reach.now.view < length reach.now.tree.now }
    requires corner { IsNear 64 reach.now.corner.right × IsNear 64 reach.now.corner.down }
    requires near { IsNear 64 way.right × IsNear 64 way.down }
    ensures { IsPainted (L.rule ink.now) (λ x y.
        shape_has raster.now way x y
        && (may_draw reach.now x y && L.at ink.now x y)) spans.old spans.new }
{
    let Some(frame) = spans.region().frame() else {
        return;
    };
    let Some(rows) = rows_in(frame, raster, way) else {
        return;
    };
    let bottom = i32::from(rows.bottom);
    let mut y = i32::from(rows.top);
    'bands: while y <= bottom {
        let area = Rect {
            top: y as i16,
            ..rows
        };
        let end = paint_band(spans, area, raster, way, reach, ink);
        y = i32::from(end) + 1;
    }
}

/// Paints those in the first rows of an area, down to the last row that has the columns of the
/// first. Gives that row.
fn paint_band<L: Lay>(
    spans: &mut SpanBuf,
    area: Rect,
    raster: &Raster,
    way: Way,
    reach: &Reach<'_>,
    ink: &L,
) -> i16
    requires view { reach.now.view < length reach.now.tree.now }
    requires corner { IsNear 64 reach.now.corner.right × IsNear 64 reach.now.corner.down }
    requires near { IsNear 64 way.right × IsNear 64 way.down }
    requires down { area.top ≤ℤ area.bottom }
    ensures forward { area.top ≤ℤ result }
    ensures within { result ≤ℤ area.bottom }
    ensures painted { IsPainted (L.rule ink.now) (λ x y. (between area.left x area.right
        && between area.top y result) && (shape_has raster.now way x y
        && (may_draw reach.now x y && L.at ink.now x y))) spans.old spans.new }
{
    let first = i32::from(area.top) - way.down;
    let end = down_to(raster.alike(first), way.down, i32::from(area.bottom)) as i16;
    let band = Rect {
        bottom: end,
        ..area
    };
    paint_row(spans, band, raster.row(first), way.right, reach, ink);
    end
}

/// Paints the pixels of an area that are in columns of a row, which lies so far to the right.
fn paint_row<L: Lay>(spans: &mut SpanBuf, area: Rect, row: Row, by: i32, reach: &Reach<'_>, ink: &L)
    requires view { reach.now.view < length reach.now.tree.now }
    requires corner { IsNear 64 reach.now.corner.right × IsNear 64 reach.now.corner.down }
    requires down { area.top ≤ℤ area.bottom }
    requires row { IsRow row }
    ensures { IsPainted (L.rule ink.now) (λ x y. rect_has area x y && (row_has row (x -ℤ by)
        && (may_draw reach.now x y && L.at ink.now x y))) spans.old spans.new }
{
    match row {
        Row::Empty => {}
        Row::One(run) => paint_run(spans, area, run, by, reach, ink),
        Row::Two(left, right) => {
            paint_run(spans, area, left, by, reach, ink);
            paint_run(spans, area, right, by, reach, ink);
        }
    }
}

/// The same of a run.
fn paint_run<L: Lay>(
    spans: &mut SpanBuf,
    area: Rect,
    run: Columns,
    by: i32,
    reach: &Reach<'_>,
    ink: &L,
)
    requires view { reach.now.view < length reach.now.tree.now }
    requires corner { IsNear 64 reach.now.corner.right × IsNear 64 reach.now.corner.down }
    requires down { area.top ≤ℤ area.bottom }
    ensures { IsPainted (L.rule ink.now) (λ x y. rect_has area x y && (span_has run (x -ℤ by)
        && (may_draw reach.now x y && L.at ink.now x y))) spans.old spans.new }
{
    if let Some(part) = columns_in(area, run, by) {
        paint_reached(spans, part, reach, ink);
    }
}

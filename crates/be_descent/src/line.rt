ghost use Rattle.std.specs.Prelude.{◌≡◌, ◌<◌, ℤ, ◌-ℤ◌, ◌≤ℤ◌, ◌&&◌, ◌||◌, ◌⊎◌, true, false};
ghost use Rattle.std.specs.Prelude.{length, IfNone, IfSome};
ghost use Rattle.be_geom.specs.Places.{IsNear};
ghost use Rattle.be_geom.specs.Points.{between};
ghost use Rattle.be_geom.specs.Rects.{rect_has};
ghost use Rattle.be_shape.specs.declared.Raster.TheVariants.{Line};
ghost use Rattle.be_shape.specs.Rows.{row_has, span_has, IsRow};
ghost use Rattle.be_shape.specs.Runs.{HasPixelOfRow};
ghost use Rattle.be_descent.specs.Drawing.{may_draw};
ghost use Rattle.be_descent.specs.Inks.{shape_has, IsLine};
ghost use Rattle.be_span.specs.Painting.{IsPainted};

use crate::held::Held;
use crate::ink::Ink;
use crate::part::columns_in;
use crate::reach::{Reach, paint_reached};
use crate::rows::rows_in;
use crate::thin::Thin;
use crate::way::Way;
use be_geom::{Point, Rect};
use be_shape::{PenSize, Raster, Row, Span as Columns};
use be_span::{Paint, SpanBuf};

/// How many rows of a line go together.
const ROWS: i32 = 64;

/// Paints the pixels of a line on which a view may draw, as far as the buffer has them. The line
/// lies that way on the screen. There is a descent for each 64 rows, in the columns that the line
/// has there. Besides them it goes once over the rectangles of the buffer's region.
pub fn paint_line<P: Paint + Copy>(
    spans: &mut SpanBuf,
    from: Point,
    to: Point,
    pen: PenSize,
    way: Way,
    reach: &Reach<'_>,
    paint: &P,
)
    requires view { reach.now.view < length reach.now.tree.now }
    requires corner { IsNear 64 reach.now.corner.right × IsNear 64 reach.now.corner.down }
    requires near { IsNear 64 way.right × IsNear 64 way.down }
    ensures { IsPainted (P.rule paint.now) (λ x y.
        shape_has (Line from to pen) way x y
        && (may_draw reach.now x y && P.at paint.now x y)) spans.old spans.new }
{
    let line = Raster::Line(from, to, pen);
    let Some(frame) = spans.region().frame() else {
        return;
    };
    let Some(rows) = rows_in(frame, &line, way) else {
        return;
    };
    let bottom = i32::from(rows.bottom);
    let mut y = i32::from(rows.top);
    'parts: while y <= bottom {
        let area = Rect {
            top: y as i16,
            ..rows
        };
        let end = paint_part(spans, area, &line, way, reach, paint);
        y = i32::from(end) + 1;
    }
}

/// Paints those in the first 64 rows of an area. The line has a pixel in each row. Gives the last.
fn paint_part<P: Paint + Copy>(
    spans: &mut SpanBuf,
    area: Rect,
    line: &Raster,
    way: Way,
    reach: &Reach<'_>,
    paint: &P,
) -> i16
    requires view { reach.now.view < length reach.now.tree.now }
    requires corner { IsNear 64 reach.now.corner.right × IsNear 64 reach.now.corner.down }
    requires near { IsNear 64 way.right × IsNear 64 way.down }
    requires down { area.top ≤ℤ area.bottom }
    requires line { IsLine line.now }
    requires rows { (y : ℤ) → area.top ≤ℤ y → y ≤ℤ area.bottom
        → HasPixelOfRow line.now (y -ℤ way.down) }
    ensures forward { area.top ≤ℤ result }
    ensures within { result ≤ℤ area.bottom }
    ensures painted { IsPainted (P.rule paint.now) (λ x y. (between area.left x area.right
        && between area.top y result) && (shape_has line.now way x y
        && (may_draw reach.now x y && P.at paint.now x y))) spans.old spans.new }
{
    let end = i32::from(area.bottom).min(i32::from(area.top) + (ROWS - 1)) as i16;
    let part = Rect {
        bottom: end,
        ..area
    };
    paint_cut(spans, part, line, way, reach, paint);
    end
}

/// The same of all rows of an area, in the columns between those of the first and the last row.
fn paint_cut<P: Paint + Copy>(
    spans: &mut SpanBuf,
    area: Rect,
    line: &Raster,
    way: Way,
    reach: &Reach<'_>,
    paint: &P,
)
    requires view { reach.now.view < length reach.now.tree.now }
    requires corner { IsNear 64 reach.now.corner.right × IsNear 64 reach.now.corner.down }
    requires near { IsNear 64 way.right × IsNear 64 way.down }
    requires down { area.top ≤ℤ area.bottom }
    requires line { IsLine line.now }
    requires top { HasPixelOfRow line.now (area.top -ℤ way.down) }
    requires bottom { HasPixelOfRow line.now (area.bottom -ℤ way.down) }
    ensures { IsPainted (P.rule paint.now) (λ x y. rect_has area x y
        && (shape_has line.now way x y
        && (may_draw reach.now x y && P.at paint.now x y))) spans.old spans.new }
{
    let top = line.row(i32::from(area.top) - way.down);
    let bottom = line.row(i32::from(area.bottom) - way.down);
    let Some(run) = round(top, bottom) else {
        return;
    };
    if let Some(part) = columns_in(area, run, way.right) {
        paint_held(spans, part, line, way, reach, paint);
    }
}

/// Paints the pixels of an area that a shape has and on which a view may draw. A thin line that is
/// steep takes fewer steps a row than others.
fn paint_held<P: Paint + Copy>(
    spans: &mut SpanBuf,
    area: Rect,
    raster: &Raster,
    way: Way,
    reach: &Reach<'_>,
    paint: &P,
)
    requires view { reach.now.view < length reach.now.tree.now }
    requires corner { IsNear 64 reach.now.corner.right × IsNear 64 reach.now.corner.down }
    requires near { IsNear 64 way.right × IsNear 64 way.down }
    ensures { IsPainted (P.rule paint.now) (λ x y. rect_has area x y
        && (may_draw reach.now x y
        && (shape_has raster.now way x y && P.at paint.now x y))) spans.old spans.new }
{
    match raster.steep() {
        Some(line) => {
            let thin = Thin {
                line,
                way,
                paint: *paint,
            };
            paint_reached(spans, area, reach, &Ink { paint: thin });
        }
        None => {
            let held = Held { raster, way, paint };
            paint_reached(spans, area, reach, &Ink { paint: held });
        }
    }
}

/// The columns between those of two rows. None where one of them has none.
fn round(one: Row, other: Row) -> Option<Columns>
    requires one { IsRow one }
    requires other { IsRow other }
    ensures none { IfNone result (((x : ℤ) → row_has one x ≡ false)
        ⊎ ((x : ℤ) → row_has other x ≡ false)) }
    ensures some { IfSome result (λ run. (x : ℤ)
        → (row_has one x || row_has other x) ≡ true → span_has run x ≡ true) }
{
    let one = ends_of(one)?;
    let other = ends_of(other)?;
    Some(Columns {
        first: one.first.min(other.first),
        last: one.last.max(other.last),
    })
}

/// The columns from the first to the last of a row. None where it has none.
fn ends_of(row: Row) -> Option<Columns>
    requires { IsRow row }
    ensures none { IfNone result ((x : ℤ) → row_has row x ≡ false) }
    ensures some { IfSome result (λ run. (x : ℤ)
        → row_has row x ≡ true → span_has run x ≡ true) }
{
    match row {
        Row::Empty => None,
        Row::One(run) => Some(run),
        Row::Two(left, right) => Some(Columns {
            first: left.first,
            last: right.last,
        }),
    }
}

ghost use Rattle.std.specs.Prelude.{◌≡◌, ◌<◌, ℤ, ◌-ℤ◌, ◌&&◌, length, count_by};
ghost use Rattle.std.specs.Option.{option_map};
ghost use Rattle.be_descent.specs.Drawing.{may_draw};
ghost use Rattle.be_descent.specs.Inks.{shape_has};
ghost use Rattle.be_span.specs.Painting.{IsPainted};
ghost use Rattle.be_geom.specs.Places.{IsNear};
ghost use Rattle.be_paint.specs.Inks.{painted_cell};
ghost use Rattle.be_paint.specs.Laying.{brush_of, ink_of, laid};
ghost use Rattle.be_paint.specs.Reach as reaches;
ghost use Rattle.be_paint.specs.Seen.{IsSeenAs};
ghost use Rattle.be_region.specs.Regions.{region_has};
ghost use Rattle.be_span.specs.Slices.{painted, pattern_color};
ghost use Rattle.be_span.specs.Spans.{cell_in};

use crate::ink::Ink;
use crate::reach::Reach;
use crate::texts::{Text, paint_text};
use be_descent::{Coat, Image, Way, paint_bands, paint_image, paint_line, paint_rect};
use be_shape::Raster;
use be_span::{Brush, Fill, Paint, SpanBuf};
use be_state::State;

/// Draws an ink where the view may draw. A pixel is painted once, by the mode of the state in
/// force, and keeps its mark.
pub fn paint(spans: &mut SpanBuf, reach: &Reach<'_>, ink: &Ink<'_>)
    requires { reach.now.view < length reach.now.tree.now }
    ensures region { spans.new.rects ≡ spans.old.rects }
    ensures painted { (seen : reaches.Reach) → IsSeenAs reach.now seen → (x y : ℤ)
        → cell_in spans.new x y
        ≡ option_map (painted_cell (region_has spans.old.rects) seen (ink_of ink.now)
        (cell_in spans.old) x y) (cell_in spans.old x y) }
    ensures marks { count_by (λ c. c.dirty) spans.new.cells
        ≡ count_by (λ c. c.dirty) spans.old.cells }
{
    let Some(site) = reach.site() else {
        return;
    };
    spans.whole();
    let state = reach.states.top();
    paint_ink(spans, ink, site.origin, state, &reach.descent(&site));
    spans.whole();
}

/// Draws an ink of a state, whose drawing coordinates begin that way on the screen.
fn paint_ink(
    spans: &mut SpanBuf,
    ink: &Ink<'_>,
    way: Way,
    state: &State,
    reach: &be_descent::Reach<'_>,
)
    requires view { reach.now.view < length reach.now.tree.now }
    requires corner { IsNear 64 reach.now.corner.right × IsNear 64 reach.now.corner.down }
    requires near { IsNear 60 way.right × IsNear 60 way.down }
    ensures { IsPainted (laid (ink_of ink.now) state.now reach.now.window way)
        (may_draw reach.now) spans.old spans.new }
{
    let brush = brush_of(state);
    match *ink {
        Ink::Shape(raster, pattern) => {
            let coat = Coat {
                brush,
                pattern,
                window: reach.window,
            };
            paint_shape(spans, &raster, way, reach, &coat);
        }
        Ink::Text(codes) => {
            let text = Text {
                codes,
                pen: state.pen,
                way,
                brush,
                color: state.high,
            };
            paint_text(spans, &text, reach);
        }
        Ink::Image(bitmap, corner) => {
            let way = Way {
                right: way.right + i32::from(corner.x),
                down: way.down + i32::from(corner.y),
            };
            paint_image(spans, &Image { brush, bitmap, way }, reach);
        }
    }
}

/// Draws a shape, which lies that way on the screen.
fn paint_shape(
    spans: &mut SpanBuf,
    raster: &Raster,
    way: Way,
    reach: &be_descent::Reach<'_>,
    coat: &Coat,
)
    requires view { reach.now.view < length reach.now.tree.now }
    requires corner { IsNear 64 reach.now.corner.right × IsNear 64 reach.now.corner.down }
    requires near { IsNear 64 way.right × IsNear 64 way.down }
    ensures { IsPainted (λ x y. painted coat.now.brush (pattern_color coat.now.brush
        coat.now.pattern.rows (x -ℤ coat.now.window.x) (y -ℤ coat.now.window.y)))
        (λ x y. shape_has raster.now way x y && may_draw reach.now x y) spans.old spans.new }
{
    match coat.plain() {
        Some(rgb) => paint_raster(spans, raster, way, reach, &Fill { rgb }),
        None => paint_raster(spans, raster, way, reach, coat),
    }
}

/// The same with what is painted.
fn paint_raster<P: Paint + Copy>(
    spans: &mut SpanBuf,
    raster: &Raster,
    way: Way,
    reach: &be_descent::Reach<'_>,
    paint: &P,
)
    requires view { reach.now.view < length reach.now.tree.now }
    requires corner { IsNear 64 reach.now.corner.right × IsNear 64 reach.now.corner.down }
    requires near { IsNear 64 way.right × IsNear 64 way.down }
    ensures { IsPainted (P.rule paint.now) (λ x y. shape_has raster.now way x y
        && (may_draw reach.now x y && P.at paint.now x y)) spans.old spans.new }
{
    let ink = be_descent::Ink { paint: *paint };
    match *raster {
        Raster::Fill(rect) => paint_rect(spans, rect, way, reach, &ink),
        Raster::Frame(_, _) => paint_bands(spans, raster, way, reach, &ink),
        Raster::Line(from, to, pen) => paint_line(spans, from, to, pen, way, reach, paint),
    }
}

/// With what a state paints.
fn brush_of(state: &State) -> Brush
    ensures { result ≡ brush_of state.now }
{
    Brush {
        mode: state.mode,
        high: state.high,
        low: state.low,
    }
}

ghost use Rattle.std.specs.Prelude.{◌≡◌, ◌<◌, ℤ, ◌&&◌, length};
ghost use Rattle.std.specs.Option.{option_map};
ghost use Rattle.be_geom.specs.Rects.{rect_has};
ghost use Rattle.be_region.specs.Regions.{region_has};
ghost use Rattle.be_span.specs.Cells.{exposed_cell};
ghost use Rattle.be_span.specs.Painting.{IsPainted};
ghost use Rattle.be_span.specs.Spans.{cell_in};
ghost use Rattle.be_descent.specs.Fronts.{shows};
ghost use Rattle.be_paint.specs.Copies.{invalidated_cell};
ghost use Rattle.be_paint.specs.Exposing.{exposed_by};
ghost use Rattle.be_paint.specs.Reach as reaches;
ghost use Rattle.be_paint.specs.Seen.{IsSeenAs};

use crate::kin::is_at_or_below;
use crate::reach::Reach;
use be_color::Color;
use be_descent::{Altering, Below, Fronts, paint_area, part_in};
use be_geom::Rect;
use be_span::{Expose, SpanBuf};

/// Invalidates a rectangle, in drawing coordinates, of the view and of those in it:
/// `BView::Invalidate`. Each pixel that the window owns there gets the colour of its own view, and
/// waits to be drawn. `colors` are those of all views, by their numbers. Clips and sessions play no
/// part.
pub fn invalidate(spans: &mut SpanBuf, reach: &Reach<'_>, rect: Rect, colors: &[Color])
    requires { reach.now.view < length reach.now.tree.now }
    ensures region { spans.new.rects ≡ spans.old.rects }
    ensures invalidated { (seen : reaches.Reach) → IsSeenAs reach.now seen → (x y : ℤ)
        → cell_in spans.new x y
        ≡ option_map (invalidated_cell (region_has spans.old.rects) seen rect colors.now
        (cell_in spans.old) x y) (cell_in spans.old x y) }
{
    let Some(site) = reach.site() else {
        return;
    };
    let Some(frame) = spans.region().frame() else {
        return;
    };
    let Some(area) = part_in(frame, rect, site.origin) else {
        return;
    };
    expose_area(spans, reach, area, colors);
}

/// Exposes the pixels of an area of the screen, each in the colour of the view at it, where that is
/// the one of a reach or lies in it.
fn expose_area(spans: &mut SpanBuf, reach: &Reach<'_>, area: Rect, colors: &[Color])
    ensures { IsPainted (exposed_by reach.now colors.now) (rect_has area) spans.old spans.new }
{
    let end = reach.tree.len() as u16;
    for view in 0..end {
        if is_at_or_below(reach.tree, reach.view, view) {
            if let Some(color) = colors.get(usize::from(view)) {
                expose_view(spans, reach, view, area, *color);
            }
        }
    }
}

/// Exposes the pixels of an area of the screen at which a view is.
fn expose_view(spans: &mut SpanBuf, reach: &Reach<'_>, view: u16, area: Rect, color: Color)
    requires { view < length reach.now.tree.now }
    ensures { IsPainted (λ x y. exposed_cell color) (λ x y. rect_has area x y
        && shows reach.now.tree.now view reach.now.window x y) spans.old spans.new }
{
    let mut fronts = Fronts::new();
    let Some(shown) = fronts.find(reach.tree, view, reach.window, area) else {
        return;
    };
    let expose = Expose { color };
    let ink = Altering {
        area: shown,
        alter: &expose,
    };
    let below = Below {
        frames: fronts.frames(),
        next: &ink,
    };
    paint_area(spans, shown, &below);
}

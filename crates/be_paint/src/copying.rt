ghost use Rattle.std.specs.Prelude.{◌≡◌, ◌<◌, ℤ, ◌+ℤ◌, ◌-ℤ◌, ◌&&◌, true, not, All, length};
ghost use Rattle.std.specs.Option.{option_map};
ghost use Rattle.be_geom.specs.Places.{IsNear};
ghost use Rattle.be_geom.specs.Rects.{rect_has};
ghost use Rattle.be_region.specs.Regions.{IsNotEmpty, region_has};
ghost use Rattle.be_span.specs.Painting.{IsPainted};
ghost use Rattle.be_span.specs.Spans.{cell_in};
ghost use Rattle.be_descent.specs.Drawing.{may_draw};
ghost use Rattle.be_descent.specs.Fronts.{shows};
ghost use Rattle.be_descent.specs.Pieces.{has_shown};
ghost use Rattle.be_descent.specs.Places.{has_moved};
ghost use Rattle.be_paint.specs.Copies.{copied_cell};
ghost use Rattle.be_paint.specs.Moving.{copied_by, read_by, is_within};
ghost use Rattle.be_paint.specs.Reach as reaches;
ghost use Rattle.be_paint.specs.Seen.{IsSeenAs};

use crate::reach::Reach;
use be_color::Color;
use be_descent::{
    Altering, Fronts, Limits, Put, Source, Way, halves_of, paint_within, part_in, read,
};
use be_geom::{Point, Rect};
use be_span::{Piece, SpanBuf};

/// Copies a rectangle of the view, in drawing coordinates, to where its left top comes to `target`:
/// `BView::CopyBits`. The old pixels alone are read, and only those that the window owns and the
/// view is at; where another one would come, the view's colour comes, and the pixel waits to be
/// drawn. Nothing is written where the view may not draw.
pub fn copy_bits(
    spans: &mut SpanBuf,
    reach: &Reach<'_>,
    source: Rect,
    target: Point,
    view_color: Color,
)
    requires { reach.now.view < length reach.now.tree.now }
    ensures region { spans.new.rects ≡ spans.old.rects }
    ensures copied { (seen : reaches.Reach) → IsSeenAs reach.now seen → (x y : ℤ)
        → cell_in spans.new x y
        ≡ option_map (copied_cell (region_has spans.old.rects) seen source target view_color
        (cell_in spans.old) x y) (cell_in spans.old x y) }
{
    let Some(site) = reach.site() else {
        return;
    };
    let way = way_to(source, target);
    let moved = Moved {
        source,
        to: Way {
            right: site.origin.right + way.right,
            down: site.origin.down + way.down,
        },
        way,
        color: view_color,
    };
    copy_moved(spans, &reach.descent(&site), &moved);
}

/// How far a rectangle's left top is from a point.
fn way_to(source: Rect, target: Point) -> Way
    ensures across { result.right ≡ target.x -ℤ source.left }
    ensures down { result.down ≡ target.y -ℤ source.top }
    ensures near { IsNear 2 result.right × IsNear 2 result.down }
{
    Way {
        right: i32::from(target.x) - i32::from(source.left),
        down: i32::from(target.y) - i32::from(source.top),
    }
}

/// A rectangle whose pixels are copied.
#[derive(Clone, Copy)]
struct Moved {
    /// In drawing coordinates.
    source: Rect,
    /// Where these coordinates begin on the screen, for the copy.
    to: Way,
    /// From a pixel to where it is copied.
    way: Way,
    /// Where there is none to copy, the pixel is exposed in this colour.
    color: Color,
}

/// Copies the pixels of a rectangle to where a view may draw.
fn copy_moved(spans: &mut SpanBuf, reach: &be_descent::Reach<'_>, moved: &Moved)
    requires view { reach.now.view < length reach.now.tree.now }
    requires corner { IsNear 64 reach.now.corner.right × IsNear 64 reach.now.corner.down }
    requires near { IsNear 2 moved.now.way.right × IsNear 2 moved.now.way.down }
    ensures { IsPainted (copied_by spans.old reach.now moved.now.way moved.now.color)
        (λ x y. has_moved moved.now.source moved.now.to x y && may_draw reach.now x y)
        spans.old spans.new }
{
    let Some(frame) = spans.region().frame() else {
        return;
    };
    let Some(part) = part_in(frame, moved.source, moved.to) else {
        return;
    };
    let mut fronts = Fronts::new();
    let Some(area) = fronts.find(reach.tree, reach.view, reach.window, part) else {
        return;
    };
    let mut others = Fronts::new();
    let shown = find_source(&mut others, reach, frame, area, moved.way);
    let copying = Copying {
        source: Source {
            shown,
            frames: others.frames(),
            way: moved.way,
        },
        limits: Limits {
            frames: fronts.frames(),
            states: reach.states,
            corner: reach.corner,
            session: reach.session,
            window: Way::to(reach.window),
        },
        color: moved.color,
    };
    copy_area(spans, &copying, &mut Piece::new(), area);
}

/// Finds where the view shows at the pixels of a frame from which a way goes to an area.
fn find_source(
    fronts: &mut Fronts,
    reach: &be_descent::Reach<'_>,
    frame: Rect,
    area: Rect,
    way: Way,
) -> Option<Rect>
    requires view { reach.now.view < length reach.now.tree.now }
    requires near { IsNear 2 way.right × IsNear 2 way.down }
    ensures { (x y : ℤ) → rect_has frame x y ≡ true
        → rect_has area (x +ℤ way.right) (y +ℤ way.down) ≡ true
        → (has_shown result x y && not (region_has fronts.new x y))
        ≡ shows reach.now.tree.now reach.now.view reach.now.window x y }
{
    let back = Way {
        right: -way.right,
        down: -way.down,
    };
    let part = part_in(frame, area, back)?;
    fronts.find(reach.tree, reach.view, reach.window, part)
}

/// A copy of pixels of a view, with what is found once.
#[derive(Clone, Copy)]
struct Copying<'a> {
    /// Which pixels it reads.
    source: Source<'a>,
    /// Where it writes.
    limits: Limits<'a>,
    /// The view's colour.
    color: Color,
}

/// Copies to the pixels of a rectangle of the screen: by halves, unless all of it is read at once.
fn copy_area(spans: &mut SpanBuf, copying: &Copying<'_>, piece: &mut Piece, area: Rect)
    requires some { IsNotEmpty area }
    requires frames { All IsNotEmpty copying.now.limits.frames.now }
    requires corner { IsNear 64 copying.now.limits.corner.right
        × IsNear 64 copying.now.limits.corner.down }
    requires near { IsNear 4 copying.now.source.way.right × IsNear 4 copying.now.source.way.down }
    ensures { IsPainted (read_by spans.old copying.now.source copying.now.color)
        (λ x y. rect_has area x y && is_within copying.now.limits x y) spans.old spans.new }
{
    if !Piece::has_room(area) {
        let (first, second) = halves_of(area, copying.source.way);
        copy_area(spans, copying, piece, first);
        copy_area(spans, copying, piece, second);
        return;
    }
    let whole = read(piece, spans, &copying.source, area);
    let put = Put {
        piece,
        whole,
        color: copying.color,
    };
    let ink = Altering { area, alter: &put };
    paint_within(spans, area, &copying.limits, &ink);
}

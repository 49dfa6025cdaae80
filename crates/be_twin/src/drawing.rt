ghost use Rattle.std.specs.Prelude.{◌≡◌, ◌<◌, length, option_map, slice_get, Some};
ghost use Rattle.be_color.specs.declared.colors.Color as colors;
ghost use Rattle.be_paint.specs.Inks.{pen_after, pen_after_shape, pen_after_text};
ghost use Rattle.be_paint.specs.Laying.{ink_of};
ghost use Rattle.be_pane.specs.StandsFor.{IsWhole};
ghost use Rattle.be_twin.specs.Made.{IsRepainted, IsInked, painting, copying, invalidating};

use crate::setting::{set_pen, state_of};
use be_geom::{Point, Rect};
use be_paint::{Ink, Reach, paint};
use be_pane::Pane;
use be_region::Region;
use be_shape::{PenSize, Raster};
use be_state::StateStack;
use be_views::ViewTree;

/// Lays an ink on the pixels that a view may draw on, and leaves the pen where the ink leaves it.
pub(crate) fn draw(pane: &mut Pane, view: u16, ink: &Ink<'_>)
    requires whole { IsWhole pane.old }
    requires there { view < length pane.old.states.items }
    ensures { IsInked view (ink_of ink.now) pane.old pane.new }
{
    let pen = state_of(pane, view).pen;
    lay(pane, view, ink);
    set_pen(pane, view, pen_after(ink, pen));
}

/// With what size of pen a view draws.
pub(crate) fn pen_size_of(pane: &Pane, view: u16) -> PenSize
    requires { view < length pane.now.states.items }
    ensures { option_map (λ s. s.top.state.pen_size) (slice_get pane.now.states.items view)
        ≡ Some result }
{
    PenSize::new(state_of(pane, view).pen_size).unwrap()
}

/// Where an ink leaves the pen.
#[tactic(auto, unfolding(be_paint::specs::Inks::pen_after))]
fn pen_after(ink: &Ink<'_>, pen: Point) -> Point
    ensures { result ≡ pen_after (ink_of ink.now) pen }
{
    match ink {
        Ink::Shape(raster, _) => pen_after_shape(raster, pen),
        Ink::Text(codes) => Point {
            x: pen_behind(codes, pen.x),
            y: pen.y,
        },
        Ink::Image(_, _) => pen,
    }
}

/// A line leaves it at its end.
fn pen_after_shape(raster: &Raster, pen: Point) -> Point
    ensures { result ≡ pen_after_shape raster.now pen }
{
    match raster {
        Raster::Fill(_) => pen,
        Raster::Frame(_, _) => pen,
        Raster::Line(_, to, _) => *to,
    }
}

/// The pen's column behind all glyphs, each 6 columns wide.
fn pen_behind(codes: &[u8], x: i16) -> i16
    ensures { result ≡ pen_after_text codes.now x }
{
    let mut x = x;
    for _code in codes {
        x = x.saturating_add(6);
    }
    x
}

/// Lays an ink on the pixels that a view may draw on. The pen stays.
fn lay(pane: &mut Pane, view: u16, ink: &Ink<'_>)
    requires whole { IsWhole pane.old }
    requires there { view < length pane.old.states.items }
    ensures { IsRepainted view (painting (ink_of ink.now)) pane.old pane.new }
{
    let reach = reach_of(pane.place, &pane.tree, view, &pane.states, &pane.session);
    paint(&mut pane.spans, &reach, ink);
}

/// Where a view may draw.
fn reach_of<'a>(
    window: Point,
    tree: &'a ViewTree,
    view: u16,
    states: &'a [StateStack],
    session: &'a Option<Region>,
) -> Reach<'a>
    requires { view < length states.now }
    ensures window { result.window ≡ window }
    ensures tree { result.tree.now ≡ tree.now }
    ensures view { result.view ≡ view }
    ensures states { slice_get states.now view ≡ Some result.states.now }
    ensures session { option_map (λ r. r.now) result.session ≡ session.now }
{
    Reach {
        window,
        tree,
        view,
        states: &states[usize::from(view)],
        session: session.as_ref(),
    }
}

/// `BView::CopyBits`.
pub(crate) fn copy_bits(pane: &mut Pane, view: u16, source: Rect, target: Point)
    requires whole { IsWhole pane.old }
    requires there { view < length pane.old.states.items }
    ensures { (color : colors.Color) → slice_get pane.old.colors.items view ≡ Some color →
        IsRepainted view (copying source target color) pane.old pane.new }
{
    let color = pane.colors[usize::from(view)];
    let reach = reach_of(pane.place, &pane.tree, view, &pane.states, &pane.session);
    be_paint::copy_bits(&mut pane.spans, &reach, source, target, color);
}

/// `BView::Invalidate`.
pub(crate) fn invalidate(pane: &mut Pane, view: u16, rect: Rect)
    requires whole { IsWhole pane.old }
    requires there { view < length pane.old.states.items }
    ensures { IsRepainted view (invalidating rect pane.old.colors.items) pane.old pane.new }
{
    let reach = reach_of(pane.place, &pane.tree, view, &pane.states, &pane.session);
    be_paint::invalidate(&mut pane.spans, &reach, rect, &pane.colors);
}

ghost use Rattle.std.specs.Prelude.{◌<◌, ℤ, ◌&&◌, length};
ghost use Rattle.be_geom.specs.Places.{IsNear};
ghost use Rattle.be_geom.specs.Rects.{rect_has};
ghost use Rattle.be_descent.specs.Drawing.{may_draw};
ghost use Rattle.be_span.specs.Painting.{IsPainted};

use crate::fronts::Fronts;
use crate::laying::Lay;
use crate::nest::{Limits, paint_within};
use crate::way::Way;
use be_geom::{Point, Rect};
use be_region::Region;
use be_span::SpanBuf;
use be_state::StateStack;
use be_views::ViewTree;

/// Where a view may draw.
#[derive(Clone, Copy)]
pub struct Reach<'a> {
    /// The window's left top on the screen.
    pub window: Point,
    pub tree: &'a ViewTree,
    pub view: u16,
    pub states: &'a StateStack,
    /// Where the view's left top is on the screen.
    pub corner: Way,
    /// The pixels that an open update may draw, in window coordinates. None while none is open.
    pub session: Option<&'a Region>,
}

/// Paints the pixels of a rectangle of the screen on which a view may draw, as far as the buffer
/// has them: those at which the view is and that every clip and the session have. No pixel is
/// looked at to find them.
pub fn paint_reached<L: Lay>(spans: &mut SpanBuf, area: Rect, reach: &Reach<'_>, ink: &L)
    requires view { reach.now.view < length reach.now.tree.now }
    requires corner { IsNear 64 reach.now.corner.right × IsNear 64 reach.now.corner.down }
    ensures { IsPainted (L.rule ink.now) (λ x y. rect_has area x y
        && (may_draw reach.now x y && L.at ink.now x y)) spans.old spans.new }
{
    let mut fronts = Fronts::new();
    let Some(shown) = fronts.find(reach.tree, reach.view, reach.window, area) else {
        return;
    };
    let limits = Limits {
        frames: fronts.frames(),
        states: reach.states,
        corner: reach.corner,
        session: reach.session,
        window: Way::to(reach.window),
    };
    paint_within(spans, shown, &limits, ink);
}

ghost use Rattle.std.specs.Prelude.{ℤ, ◌&&◌, not, All, option_map};
ghost use Rattle.be_geom.specs.Rects.{rect_has};
ghost use Rattle.be_region.specs.Regions.{IsNotEmpty, region_has};
ghost use Rattle.be_geom.specs.Places.{IsNear};
ghost use Rattle.be_descent.specs.Clips.{states_allow};
ghost use Rattle.be_span.specs.Painting.{IsPainted};
ghost use Rattle.be_descent.specs.Places.{session_has};

use crate::area::paint_area;
use crate::below::Below;
use crate::clips::Clips;
use crate::laying::Lay;
use crate::session::Session;
use crate::way::Way;
use be_geom::Rect;
use be_region::Region;
use be_span::SpanBuf;
use be_state::StateStack;

/// What holds drawing back, but for the buffer's region and the ink.
#[derive(Clone, Copy)]
pub struct Limits<'a> {
    /// Where what is in front is on the screen.
    pub frames: &'a [Rect],
    /// All of their clips have the pixels that are painted.
    pub states: &'a StateStack,
    /// Where the view's left top is on the screen.
    pub corner: Way,
    /// The pixels that an open update may draw. None while none is open.
    pub session: Option<&'a Region>,
    /// Where the session's region lies on the screen.
    pub window: Way,
}

/// Paints the pixels of a rectangle of the screen, as far as the buffer has them, that are in none
/// of the frames and that every clip and the session have.
pub fn paint_within<L: Lay>(spans: &mut SpanBuf, area: Rect, limits: &Limits<'_>, ink: &L)
    requires some { All IsNotEmpty limits.now.frames.now }
    requires near { IsNear 64 limits.now.corner.right × IsNear 64 limits.now.corner.down }
    ensures { IsPainted (L.rule ink.now) (λ x y. rect_has area x y
        && (not (region_has limits.now.frames.now x y)
        && (states_allow limits.now.states.now limits.now.corner x y
        && (session_has (option_map (λ r. r.now) limits.now.session) limits.now.window x y
        && L.at ink.now x y))))
        spans.old spans.new }
{
    let session = Session {
        region: limits.session,
        way: limits.window,
        next: ink,
    };
    let clips = Clips {
        states: limits.states,
        corner: limits.corner,
        next: &session,
    };
    let below = Below {
        frames: limits.frames,
        next: &clips,
    };
    paint_area(spans, area, &below);
}

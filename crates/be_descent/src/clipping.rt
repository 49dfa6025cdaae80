ghost use Rattle.std.specs.Prelude.{ℤ, ◌+◌, ◌≤◌, ◌&&◌, length};
ghost use Rattle.be_geom.specs.Places.{IsNear};
ghost use Rattle.be_geom.specs.Rects.{rect_has};
ghost use Rattle.be_span.specs.Runs.{IsSpanOf, IsInside};
ghost use Rattle.be_descent.specs.Clips.{first_hold};
ghost use Rattle.be_span.specs.Painting.{IsPainted};

use crate::laying::Lay;
use crate::walk::next_in;
use crate::way::Way;
use be_geom::Rect;
use be_span::{Span, SpanBuf};
use be_state::StateStack;

/// Goes on with the pixels of a rectangle that each clip of a view's first states has.
pub(crate) fn within_first<L: Lay>(
    states: &StateStack,
    count: u32,
    corner: Way,
    spans: &mut SpanBuf,
    next: &L,
    span: Span,
    area: Rect,
)
    requires count { count ≤ length states.now.saved + 1 }
    requires near { IsNear 64 corner.right × IsNear 64 corner.down }
    requires span { IsSpanOf spans.old.rects span }
    requires inside { IsInside area span.rect }
    ensures { IsPainted (L.rule next.now) (λ x y. rect_has area x y
        && (first_hold states.now count corner x y && L.at next.now x y)) spans.old spans.new }
{
    if count == 0 {
        next.lay(spans, span, area);
        return;
    }
    let Some(clip) = states.clip(count - 1) else {
        within_first(states, count - 1, corner, spans, next, span, area);
        return;
    };
    let way = Way {
        right: corner.right + clip.right,
        down: corner.down + clip.down,
    };
    let mut place = 0;
    while let Some(found) = next_in(clip.region, place, way, area) {
        within_first(states, count - 1, corner, spans, next, span, found.part);
        place = found.after;
    }
}

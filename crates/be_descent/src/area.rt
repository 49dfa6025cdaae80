ghost use Rattle.std.specs.Prelude.{◌&&◌};
ghost use Rattle.be_geom.specs.Rects.{rect_has};
ghost use Rattle.be_span.specs.Painting.{IsPainted};

use crate::laying::Lay;
use crate::walk::next_in;
use crate::way::HERE;
use be_geom::Rect;
use be_span::SpanBuf;

/// Paints the pixels of a rectangle of the screen, as far as the buffer has them: the stage gets
/// the part in each span that has some. The first is found by bisection.
pub fn paint_area<L: Lay>(spans: &mut SpanBuf, area: Rect, stage: &L)
    ensures { IsPainted (L.rule stage.now) (λ x y. rect_has area x y && L.at stage.now x y)
        spans.old spans.new }
{
    let mut place = 0;
    while let Some(found) = next_in(spans.region(), place, HERE, area) {
        let span = spans.span(found.after - 1);
        stage.lay(spans, span, found.part);
        place = found.after;
    }
}

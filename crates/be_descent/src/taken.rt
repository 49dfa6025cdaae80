ghost use Rattle.std.specs.Prelude.{◌≡◌, Some, slice_get};
ghost use Rattle.be_geom.specs.Places.{IsNear};

use crate::way::Way;
use be_geom::Rect;
use be_span::{Span, SpanBuf};

/// The pixels of a span, which come that way.
#[derive(Drop)]
pub(crate) struct Taken<'a> {
    pub(crate) spans: &'a SpanBuf,
    /// Which rectangle of the region the span is.
    pub(crate) place: usize,
    pub(crate) span: Span,
    pub(crate) rect: Rect,
    pub(crate) way: Way,
    ghost same: { span.rect ≡ rect },
    ghost across: { IsNear 1 rect.left × IsNear 1 rect.right },
    ghost down: { IsNear 1 rect.top × IsNear 1 rect.bottom },
    ghost there: { slice_get spans.now.rects place ≡ Some span.rect },
    ghost near: { IsNear 4 way.right × IsNear 4 way.down },
}

use crate::laying::Lay;
use be_geom::Rect;
use be_span::{Paint, Span, SpanBuf};

/// The end of a descent: it paints. It has what it paints with at hand, so that what is the same in
/// all rows is looked up once a rectangle.
#[derive(Clone, Copy)]
pub struct Ink<P> {
    pub paint: P,
}

impl<P: Paint + Copy> Lay for Ink<P> {
    ghost rule = { λ s. P.rule s.paint };

    ghost at = { λ s. P.at s.paint };

    #[inline(always)]
    fn lay(&self, spans: &mut SpanBuf, span: Span, area: Rect) {
        let paint = self.paint;
        spans.paint(span, area, &paint);
    }
}

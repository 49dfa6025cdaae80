ghost use Rattle.std.specs.Prelude.{◌≡◌};

use be_geom::Rect;
use std::marker::Model;

/// A rectangle of a buffer's region.
#[derive(Clone, Copy, Debug)]
pub struct Span {
    pub(crate) rect: Rect,
}

impl Model for Span {
    ghost use Rattle.be_span.specs.Spans.{SpanAt};

    ghost Value = { SpanAt };

    ghost view = { λ s. record { rect = s.rect } };

    ghost inverse = { λ s. record { rect = s.rect } };
}

impl Span {
    /// The rectangle.
    pub fn rect(&self) -> Rect
        ensures { result ≡ self.now.rect }
    {
        self.rect
    }
}

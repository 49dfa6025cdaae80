use crate::shift::Shift;
use be_geom::Change;
use be_span::SpanBuf;
use be_stack::Stack;
use std::marker::Model;

/// A change with all that it makes anew, so that it is carried out without memory.
#[derive(Debug, Drop)]
pub struct Plan {
    pub(crate) window: u16,
    pub(crate) change: Change,
    /// The windows afterwards.
    pub(crate) stack: Stack,
    /// For each pane what becomes of its pixels. None where they are as before.
    pub(crate) spans: Vec<Option<Renewed>>,
}

impl Model for Plan {
    ghost use Rattle.be_desk.specs.Plans.{Planned};

    ghost Value = { Planned };

    ghost view = { λ p. record {
      window = p.window;
      change = p.change;
      windows = p.stack;
      spans = p.spans.items;
    } };
}

/// What becomes of a window's pixels.
#[derive(Debug, Drop)]
pub(crate) enum Renewed {
    /// Others take their place.
    Whole(SpanBuf),
    /// They stay, or go with the window, and only what is newly exposed is made.
    InPlace(Shift),
}

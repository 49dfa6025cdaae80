use smallvec::SmallVec;

/// The columns of a rectangle, both of which belong to it.
#[derive(Clone, Copy, Debug, Default, PartialEq, Eq)]
pub(crate) struct Span {
    pub left: i16,
    pub right: i16,
}

/// The spans of a line. As many as a line mostly has need no allocation.
pub(crate) type Spans = SmallVec<Span, 8>;

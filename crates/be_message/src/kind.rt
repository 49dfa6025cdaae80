ghost use Rattle.std.specs.Prelude.{◌≡◌};
ghost use Rattle.be_message.specs.Kinds.{is_kind};

/// What a field's values are, by the type constants of The Be Book.
#[derive(Clone, Copy, Debug, PartialEq, Eq)]
pub enum Kind {
    /// `B_BOOL_TYPE`.
    Bool,
    /// `B_INT32_TYPE`.
    Int,
    /// `B_STRING_TYPE`.
    Text,
    /// `B_POINT_TYPE`.
    Point,
    /// `B_RECT_TYPE`.
    Rect,
    /// `B_MESSAGE_TYPE`.
    Message,
}

impl Kind {
    /// Whether the two are one type.
    pub(crate) fn is(self, other: Kind) -> bool
        ensures { result ≡ is_kind self other }
    {
        self == other
    }
}

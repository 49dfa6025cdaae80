ghost use Rattle.std.specs.Prelude.{◌≡◌, ◌-ℤ◌};
ghost use Rattle.be_follow.specs.Shifts.{half};

/// Which of its parent's sides a view keeps its distance from, across.
#[derive(Clone, Copy, Debug, PartialEq, Eq)]
pub enum Across {
    /// `B_FOLLOW_LEFT`: both edges stay.
    Left,
    /// `B_FOLLOW_RIGHT`: both edges go with the parent's right edge.
    Right,
    /// `B_FOLLOW_LEFT_RIGHT`: the left edge stays, the right one goes with the parent's.
    LeftRight,
    /// `B_FOLLOW_H_CENTER`: both edges go with the parent's middle, half its width. Half a column
    /// is rounded down, also below 0: half of 5 is 2, half of -5 is -3.
    Center,
}

/// Which of its parent's sides a view keeps its distance from, down.
#[derive(Clone, Copy, Debug, PartialEq, Eq)]
pub enum Down {
    /// `B_FOLLOW_TOP`: both edges stay.
    Top,
    /// `B_FOLLOW_BOTTOM`: both edges go with the parent's bottom edge.
    Bottom,
    /// `B_FOLLOW_TOP_BOTTOM`: the top edge stays, the bottom one goes with the parent's.
    TopBottom,
    /// `B_FOLLOW_V_CENTER`: both edges go with the parent's middle, half its height. Half a row is
    /// rounded down, also below 0.
    Center,
}

/// A resizing mode of a view. `B_FOLLOW_NONE` is `Left` and `Top`.
#[derive(Clone, Copy, Debug, PartialEq, Eq)]
pub struct Follow {
    /// How the left and the right edge follow.
    pub across: Across,
    /// How the top and the bottom edge follow.
    pub down: Down,
}

impl Across {
    ghost use Rattle.be_follow.specs.Shifts.{left_shift, right_shift};

    /// How far the left and the right edge move where the parent's width goes from `old` to `new`.
    pub(crate) fn shifts(self, old: i32, new: i32) -> (i64, i64)
        ensures left { result.0 ≡ left_shift self old new }
        ensures right { result.1 ≡ right_shift self old new }
    {
        let side = growth(old, new);
        let middle = growth(floor_half(old), floor_half(new));
        match self {
            Across::Left => (0, 0),
            Across::Right => (side, side),
            Across::LeftRight => (0, side),
            Across::Center => (middle, middle),
        }
    }
}

impl Down {
    ghost use Rattle.be_follow.specs.Shifts.{top_shift, bottom_shift};

    /// How far the top and the bottom edge move where the parent's height goes from `old` to `new`.
    pub(crate) fn shifts(self, old: i32, new: i32) -> (i64, i64)
        ensures top { result.0 ≡ top_shift self old new }
        ensures bottom { result.1 ≡ bottom_shift self old new }
    {
        let side = growth(old, new);
        let middle = growth(floor_half(old), floor_half(new));
        match self {
            Down::Top => (0, 0),
            Down::Bottom => (side, side),
            Down::TopBottom => (0, side),
            Down::Center => (middle, middle),
        }
    }
}

fn growth(old: i32, new: i32) -> i64
    ensures { result ≡ new -ℤ old }
{
    i64::from(new) - i64::from(old)
}

fn floor_half(size: i32) -> i32
    ensures { result ≡ half size }
{
    size.div_euclid(2)
}

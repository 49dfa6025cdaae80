ghost use Rattle.std.specs.Prelude.{◌≡◌};

use be_geom::Point;

/// How far right and how far down something lies, in pixels.
#[derive(Clone, Copy, Debug, PartialEq, Eq)]
pub struct Way {
    pub right: i32,
    pub down: i32,
}

/// What lies where it is given.
pub(crate) const HERE: Way = Way { right: 0, down: 0 };

impl Way {
    /// From (0, 0) to a point.
    pub fn to(point: Point) -> Way
        ensures across { result.right ≡ point.x }
        ensures down { result.down ≡ point.y }
    {
        Way {
            right: i32::from(point.x),
            down: i32::from(point.y),
        }
    }
}

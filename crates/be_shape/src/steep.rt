ghost use Rattle.std.specs.Prelude.{◌≡◌, ℤ, pos, negsuc, ◌≤ℤ◌, false, IfNone, IfSome};
ghost use Rattle.be_geom.specs.Points.{between};
ghost use Rattle.be_shape.specs.Rasters.{line_has, IsSteep};

use crate::line::point_at;
use be_geom::Point;

/// A line of the thinnest pen that goes at least as far down or up as across: each of its rows has
/// one pixel.
#[derive(Clone, Copy, Debug, PartialEq, Eq)]
pub struct Steep {
    pub from: Point,
    pub to: Point,
}

impl Steep {
    /// The column of the pixel in row `y`. None above and below the line.
    #[inline(always)]
    pub fn column(self, y: i32) -> Option<i32>
        requires { IsSteep self.from self.to }
        ensures none { IfNone result ((x : ℤ) → line_has self.from self.to 1 x y ≡ false) }
        ensures some { IfSome result (λ column. (x : ℤ)
            → between column x column ≡ line_has self.from self.to 1 x y) }
        ensures near { IfSome result (λ column.
            (negsuc 32767 ≤ℤ column) × (column ≤ℤ pos 32767)) }
    {
        let steps = u64::from(self.to.y.abs_diff(self.from.y));
        let way = if self.from.y <= self.to.y {
            i64::from(y) - i64::from(self.from.y)
        } else {
            i64::from(self.from.y) - i64::from(y)
        };
        if way < 0 || (steps as i64) < way {
            return None;
        }
        Some(i32::from(point_at(way as u64, steps, self.from.x, self.to.x)))
    }
}

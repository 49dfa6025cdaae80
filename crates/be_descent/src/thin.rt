ghost use Rattle.std.specs.Prelude.{◌≡◌, ℕ, ℤ, pos, ◌+ℤ◌, ◌-ℤ◌, ◌&&◌, true, ⊤};
ghost use Rattle.std.specs.Prelude.{length, slice_get, count_by};
ghost use Rattle.std.specs.Option.{option_map};
ghost use Rattle.be_geom.specs.Places.{IsNear};
ghost use Rattle.be_geom.specs.Points.{between};
ghost use Rattle.be_shape.specs.Rasters.{line_has, IsSteep};
ghost use Rattle.be_span.specs.Painting.{changed, AreInRange};

use crate::far::far_from;
use crate::way::Way;
use be_shape::Steep;
use be_span::{Cell, Paint, paint_part};
use std::alloc::AllocError;

/// What is painted, held to a line that has one pixel in each row.
pub(crate) struct Thin<P> {
    pub(crate) line: Steep,
    /// Where the line lies on the screen.
    pub(crate) way: Way,
    pub(crate) paint: P,
    ghost near: { IsNear 64 way.right × IsNear 64 way.down },
    ghost steep: { IsSteep line.from line.to },
}

impl<P: Copy> Clone for Thin<P> {
    ghost is_clone = { λ x y. y ≡ x };

    ghost is_infallible = { λ _. ⊤ };

    fn clone(&self) -> Result<Self, AllocError> {
        Ok(*self)
    }
}

impl<P: Copy> Copy for Thin<P> {}

impl<P: Paint> Paint for Thin<P> {
    ghost rule = { λ s. P.rule s.paint };

    ghost at = { λ s x y. line_has s.line.from s.line.to 1 (x -ℤ s.way.right) (y -ℤ s.way.down)
        && P.at s.paint x y };

    #[inline(always)]
    fn paint(&self, cells: &mut [Cell], x: i32, y: i32, clean: bool) {
        if let Some(column) = self.line.column(y - self.way.down) {
            paint_pixel(cells, x, y, column + self.way.right, &self.paint, clean);
        }
    }
}

/// Paints the cell of the pixel in a column, where it is one of these.
#[inline(always)]
fn paint_pixel<P: Paint>(cells: &mut [Cell], x: i32, y: i32, column: i32, paint: &P, clean: bool)
    requires range { AreInRange x y (length cells.old) }
    requires clean { clean ≡ true → count_by (λ c. c.dirty) cells.old ≡ 0 }
    ensures cells { (k : ℕ) → slice_get cells.new k ≡ option_map (changed (P.rule paint.now)
        (λ z w. between column z column && P.at paint.now z w) (x +ℤ pos k) y)
        (slice_get cells.old k) }
    ensures marks { count_by (λ c. c.dirty) cells.new ≡ count_by (λ c. c.dirty) cells.old }
{
    if column < x || x + cells.len() as i32 <= column {
        return;
    }
    paint_part(cells, far_from(x, column), 1, column, y, paint, clean);
}

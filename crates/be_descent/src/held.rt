ghost use Rattle.std.specs.Prelude.{◌≡◌, ℕ, ℤ, pos, ◌+ℤ◌, ◌-ℤ◌, ◌&&◌, true, ⊤, length, slice_get};
ghost use Rattle.std.specs.Prelude.{count_by};
ghost use Rattle.std.specs.Option.{option_map};
ghost use Rattle.be_geom.specs.Places.{IsNear};
ghost use Rattle.be_shape.specs.Rows.{span_has};
ghost use Rattle.be_span.specs.Painting.{changed, AreInRange};
ghost use Rattle.be_descent.specs.Inks.{shape_has};

use crate::far::far_from;
use crate::part::common;
use crate::way::Way;
use be_shape::{Raster, Row, Span as Columns};
use be_span::{Cell, Paint, paint_part};
use std::alloc::AllocError;

/// What is painted, held to a shape. It takes each row by itself.
pub struct Held<'a, P> {
    pub raster: &'a Raster,
    /// Where the shape lies on the screen.
    pub way: Way,
    pub paint: &'a P,
    pub ghost near: { IsNear 64 way.right × IsNear 64 way.down },
}

impl<P> Clone for Held<'_, P> {
    ghost is_clone = { λ x y. y ≡ x };

    ghost is_infallible = { λ _. ⊤ };

    fn clone(&self) -> Result<Self, AllocError> {
        Ok(*self)
    }
}

impl<P> Copy for Held<'_, P> {}

impl<P: Paint> Paint for Held<'_, P> {
    ghost rule = { λ s. P.rule s.paint.now };

    ghost at = { λ s x y. shape_has s.raster.now s.way x y && P.at s.paint.now x y };

    #[inline(always)]
    fn paint(&self, cells: &mut [Cell], x: i32, y: i32, clean: bool) {
        let by = self.way.right;
        match self.raster.row(y - self.way.down) {
            Row::Empty => {}
            Row::One(run) => paint_run(cells, x, y, run, by, self.paint, clean),
            Row::Two(left, right) => {
                paint_run(cells, x, y, left, by, self.paint, clean);
                paint_run(cells, x, y, right, by, self.paint, clean);
            }
        }
    }
}

/// Paints those cells that are in columns of a run, which lies so far to the right.
#[inline(always)]
pub(crate) fn paint_run<P: Paint>(
    cells: &mut [Cell],
    x: i32,
    y: i32,
    run: Columns,
    by: i32,
    paint: &P,
    clean: bool,
)
    requires range { AreInRange x y (length cells.old) }
    requires clean { clean ≡ true → count_by (λ c. c.dirty) cells.old ≡ 0 }
    ensures cells { (k : ℕ) → slice_get cells.new k ≡ option_map (changed (P.rule paint.now)
        (λ z w. span_has run (z -ℤ by) && P.at paint.now z w) (x +ℤ pos k) y)
        (slice_get cells.old k) }
    ensures marks { count_by (λ c. c.dirty) cells.new ≡ count_by (λ c. c.dirty) cells.old }
{
    if cells.is_empty() {
        return;
    }
    let end = x + (cells.len() as i32 - 1);
    let Some((first, last)) = common(x as i16, end as i16, run.first, run.last, by) else {
        return;
    };
    let (first, last) = (i32::from(first), i32::from(last));
    let start = far_from(x, first);
    let count = far_from(first, last) + 1;
    paint_part(cells, start, count, first, y, paint, clean);
}

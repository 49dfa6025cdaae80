ghost use Rattle.std.specs.Prelude.{◌≡◌, ◌<◌, ℕ, Some, true, length, slice_get};
ghost use Rattle.be_span.specs.Slices.{recolored};

use crate::Cell;
use crate::brush::Brush;
use crate::cells::paint_alike;
use crate::paint::Paint;
use be_color::{Color, Rgb};

/// Each pixel gets a colour, whatever it had. Where none is dirty no cell is read.
#[derive(Clone, Copy, Debug, PartialEq, Eq)]
pub struct Fill {
    pub rgb: Rgb,
}

impl Paint for Fill {
    ghost rule = { λ s x y c. recolored s.rgb c };

    ghost at = { λ s x y. true };

    #[inline(always)]
    fn paint(&self, cells: &mut [Cell], _x: i32, _y: i32, clean: bool) {
        let rgb = self.rgb;
        if clean {
            fill_each(cells, Cell { rgb, dirty: false });
        } else {
            paint_alike(cells, Brush::PLAIN, Color::Solid(rgb));
        }
    }
}

/// Makes all cells the same. One alone takes no loop.
#[inline(always)]
fn fill_each(cells: &mut [Cell], cell: Cell)
    ensures len { length cells.new ≡ length cells.old }
    ensures each { (k : ℕ) → k < length cells.old → slice_get cells.new k ≡ Some cell }
{
    match cells {
        [one] => *one = cell,
        _ => cells.fill(cell),
    }
}

ghost use Rattle.std.specs.Prelude.{◌≡◌, ◌+◌, true, map};
ghost use Rattle.be_color.specs.declared.colors.Color.TheVariants.{Clear};
ghost use Rattle.be_span.specs.Cells.{exposed_cell};

use crate::Cell;
use crate::alter::Alter;
use crate::rows::dirty_of;
use be_color::Color;

/// Each pixel gets a colour, or keeps its own where that is transparent, and waits to be drawn.
#[derive(Clone, Copy, Debug, PartialEq, Eq)]
pub struct Expose {
    pub color: Color,
}

impl Alter for Expose {
    ghost rule = { λ s x y. exposed_cell s.color };

    ghost at = { λ s x y. true };

    ghost knows = { λ s x y. true };

    #[inline(always)]
    fn alter(&self, cells: &mut [Cell], _x: i32, _y: i32, dirty: usize) -> usize {
        let lost = dirty_of(cells, dirty);
        expose_all(cells, self.color);
        dirty - lost + cells.len()
    }
}

/// Gives each cell the colour, or leaves it its own where that is transparent, and a mark.
fn expose_all(cells: &mut [Cell], color: Color)
    ensures { cells.new ≡ map (exposed_cell color) cells.old }
{
    match color {
        Color::Solid(rgb) => cells.fill(Cell { rgb, dirty: true }),
        Color::Clear => mark_all(cells),
    }
}

/// Gives each cell a mark.
fn mark_all(cells: &mut [Cell])
    ensures { cells.new ≡ map (exposed_cell Clear) cells.old }
{
    for cell in cells.iter_mut() {
        cell.dirty = true;
    }
}

ghost use Rattle.std.specs.Prelude.{◌≡◌, ℤ, ◌-ℤ◌, true, IfSome, slice_index};
ghost use Rattle.be_color.specs.Pattern.{place_in_pattern};
ghost use Rattle.be_span.specs.declared.Cell.{Cell};
ghost use Rattle.be_span.specs.Slices.{painted, pattern_color, recolored};

use be_color::{Color, Pattern, Rgb, pick};
use be_geom::Point;
use be_span::{Brush, Cell, Paint, paint_bits};

/// A mode joins to each pixel the colour that its bit of a pattern picks.
#[derive(Clone, Copy)]
pub struct Coat {
    pub brush: Brush,
    pub pattern: Pattern,
    /// From where the pattern is laid over the screen: the window's left top.
    pub window: Point,
}

impl Paint for Coat {
    ghost rule = { λ s x y. painted s.brush
        (pattern_color s.brush s.pattern.rows (x -ℤ s.window.x) (y -ℤ s.window.y)) };

    ghost at = { λ s x y. true };

    #[inline(always)]
    fn paint(&self, cells: &mut [Cell], x: i32, y: i32, clean: bool) {
        let byte = row_of(&self.pattern, y - i32::from(self.window.y));
        paint_bits(cells, self.brush, byte, x - i32::from(self.window.x), clean);
    }
}

impl Coat {
    /// The colour that each pixel gets whatever it had, where it is one for all of them.
    pub fn plain(&self) -> Option<Rgb>
        ensures { IfSome result (λ rgb. (x y : ℤ) (c : Cell) → painted self.now.brush
            (pattern_color self.now.brush self.now.pattern.rows x y) c ≡ recolored rgb c) }
    {
        let Brush { mode, high, low } = self.brush;
        let bit = self.pattern.solid_bit()?;
        match pick(mode, bit, high, low) {
            Color::Solid(rgb) if self.brush.replaces() => Some(rgb),
            Color::Solid(_) | Color::Clear => None,
        }
    }
}

/// The row of a pattern at a row of the coordinates over which it is laid.
#[tactic(auto, unfolding(be_color::specs::Pattern::place_in_pattern))]
fn row_of(pattern: &Pattern, y: i32) -> u8
    ensures { result ≡ slice_index pattern.now.rows (place_in_pattern y) }
{
    pattern.rows[y.rem_euclid(8) as usize]
}

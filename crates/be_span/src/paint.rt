ghost use Rattle.std.specs.Prelude.{◌≡◌, ℕ, ℤ, pos, ◌+ℤ◌, Bool, true, length, slice_get, count_by};
ghost use Rattle.std.specs.Option.{option_map};
ghost use Rattle.be_span.specs.declared.Cell.{Cell};
ghost use Rattle.be_span.specs.Painting.{changed, AreInRange};

use crate::Cell;
use crate::alter::Alter;

/// What painting makes of pixels. The mark of each stays.
pub trait Paint {
    /// What becomes of the cell of a pixel.
    ghost rule: { Self → ℤ → ℤ → Cell → Cell };

    /// At which pixels.
    ghost at: { Self → ℤ → ℤ → Bool };

    /// Does so to pixels side by side in a row of the screen, from (x, y) on to the right. Where it
    /// is told that none of them is dirty, it needn't read a cell to store another.
    fn paint(&self, cells: &mut [Cell], x: i32, y: i32, clean: bool)
        requires range { AreInRange x y (length cells.old) }
        requires clean { clean ≡ true → count_by (λ c. c.dirty) cells.old ≡ 0 }
        ensures cells { (k : ℕ) → slice_get cells.new k
            ≡ option_map (changed (rule self.now) (at self.now) (x +ℤ pos k) y)
            (slice_get cells.old k) }
        ensures marks { count_by (λ c. c.dirty) cells.new
            ≡ count_by (λ c. c.dirty) cells.old };
}

/// What is painted, as pixels are altered: no mark goes and none comes.
#[derive(Drop)]
pub(crate) struct Kept<'a, P> {
    pub(crate) paint: &'a P,
}

impl<P: Paint> Alter for Kept<'_, P> {
    ghost rule = { λ s. P.rule s.paint.now };

    ghost at = { λ s. P.at s.paint.now };

    ghost knows = { λ s x y. true };

    #[inline(always)]
    fn alter(&self, cells: &mut [Cell], x: i32, y: i32, dirty: usize) -> usize {
        self.paint.paint(cells, x, y, dirty == 0);
        dirty
    }
}

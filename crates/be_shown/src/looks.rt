ghost use Rattle.std.specs.Prelude.{◌≡◌, ◌<◌, ◌^◌, ◌+ℤ◌, ◌≤ℤ◌, length, pos, None};
ghost use Rattle.be_parts.specs.Parts.{meaning_of};
ghost use Rattle.be_shown.specs.Pixels.{HasCells, HasNone, pixel_in};

use be_parts::Part;
use be_span::Cell;

/// How many pixels of row `y` the part has none of, from column `x` on: 0 where it has the first,
/// else at most as many as there are up to the next that it has.
pub(crate) fn none_from(part: &Part, x: u16, y: u16) -> u32
    ensures none { HasNone (meaning_of part.now) x y result }
    ensures has { result ≡ 0 → pixel_in (meaning_of part.now) (pos x) (pos y) ≡ None → ⊥ }
{
    part.means_its_kind();
    let Part::Pane(pane) = part else {
        return u32::MAX;
    };
    let column = i32::from(x);
    let (has, last) = pane.pane().spans.region().run_at(column, i32::from(y));
    if has {
        return 0;
    }
    steps(column, last) + 1
}

/// How far it is from a column to another.
fn steps(column: i32, other: i32) -> u32
    requires from { pos 0 ≤ℤ column }
    requires to { column ≤ℤ other }
    ensures far { (column +ℤ pos result) ≡ other }
    ensures small { result < 2 ^ 31 }
{
    (other - column) as u32
}

/// The cells that the part has from a pixel on, as far as they lie side by side. Empty where it
/// hasn't this one.
pub(crate) fn cells_from(part: &Part, x: u16, y: u16) -> &[Cell]
    ensures some { (pixel_in (meaning_of part.now) (pos x) (pos y) ≡ None → ⊥)
        → 0 < length result.now }
    ensures cells { HasCells (meaning_of part.now) x y result.now }
{
    part.means_its_kind();
    let Part::Pane(pane) = part else {
        return &[];
    };
    pane.pane().spans.row_from(i32::from(x), i32::from(y))
}

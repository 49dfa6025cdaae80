ghost use Rattle.std.specs.Prelude.{◌≡◌, ◌⊎◌, ℤ, pos, negsuc, ◌-ℤ◌, ◌≤ℤ◌, ◌<ℤ◌, true, false};
ghost use Rattle.be_geom.specs.Rects.{rect_has};
ghost use Rattle.be_region.specs.Regions.{IsNotEmpty};
ghost use Rattle.be_descent.specs.Cutting.{AreHalves};

use crate::cutting::{columns_at, rows_at};
use crate::way::Way;
use be_geom::Rect;

/// Two halves of a rectangle whose pixels are copied to, from where a way begins that ends there:
/// the one comes first from which nothing is copied to the other.
pub fn halves_of(area: Rect, way: Way) -> (Rect, Rect)
    requires some { IsNotEmpty area }
    requires more { (area.top <ℤ area.bottom) ⊎ (area.left <ℤ area.right) }
    ensures halves { AreHalves area result.0 result.1 }
    ensures apart { (x y : ℤ) → rect_has result.1 x y ≡ true
        → rect_has result.0 (x -ℤ way.right) (y -ℤ way.down) ≡ false }
{
    if area.top < area.bottom {
        let (above, below) = rows_at(area, behind_middle(area.top, area.bottom));
        if way.down > 0 {
            (below, above)
        } else {
            (above, below)
        }
    } else {
        let (before, behind) = columns_at(area, behind_middle(area.left, area.right));
        if way.right > 0 {
            (behind, before)
        } else {
            (before, behind)
        }
    }
}

/// About as far from the one coordinate as from the other, and behind the first.
fn behind_middle(low: i16, high: i16) -> i16
    requires { low <ℤ high }
    ensures behind { low <ℤ result }
    ensures within { result ≤ℤ high }
{
    (middle_of(i32::from(low), i32::from(high)) + 1) as i16
}

/// A coordinate about as far from the one as from the other.
fn middle_of(low: i32, high: i32) -> i32
    requires from { negsuc 32767 ≤ℤ low }
    requires forward { low <ℤ high }
    requires to { high ≤ℤ pos 32767 }
    ensures from { low ≤ℤ result }
    ensures to { result <ℤ high }
{
    low + (high - low) / 2
}

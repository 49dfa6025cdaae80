ghost use Rattle.std.specs.Prelude.{◌≡◌, ℤ, ◌-ℤ◌, ◌&&◌, not, true, false, IsSome, None};
ghost use Rattle.be_region.specs.Regions.{region_has};
ghost use Rattle.be_desk.specs.Shifts.{newest};

use be_region::Region;
use be_span::{Next, SpanBuf};

/// The way that a window's pixels go, and which it has then.
#[derive(Debug, Drop)]
pub(crate) struct Shift {
    /// How far right they go.
    pub(crate) dx: i32,
    /// How far down.
    pub(crate) dy: i32,
    /// The pixels that the window has before.
    pub(crate) from: Region,
    /// Those that it has then.
    pub(crate) next: Next,
    /// Those that it gives up, where they have gone.
    pub(crate) given: Region,
    /// Those that are newly exposed, with their cells.
    pub(crate) fresh: Vec<SpanBuf>,
    ghost gone: { (x y : ℤ) → region_has given x y
        ≡ (region_has from (x -ℤ dx) (y -ℤ dy) && not (region_has next x y)) },
    ghost whole: { (x y : ℤ) → region_has next x y ≡ true
        → region_has from (x -ℤ dx) (y -ℤ dy) ≡ false
        → IsSome (newest fresh.items x y None) },
}

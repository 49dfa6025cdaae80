ghost use Rattle.std.specs.Prelude.{◌≡◌, ◌↔◌, ℕ, IfOk, true, false};
ghost use Rattle.be_region.specs.Regions.{IsDifference};
ghost use Rattle.be_geom.specs.Rects.{AreDisjoint};
ghost use Rattle.be_stack.specs.Visible.{IsVisible};
ghost use Rattle.be_stack.specs.Windows.{Windows};
ghost use Rattle.be_desk.specs.Affected.{CoversNone, IsBeside, IsZone, OthersStay, OwnsTheSame};

use be_geom::{NoMemory, Rect};
use be_region::Region;
use be_stack::Stack;

/// What the changed window owns of the screen afterwards, and what it owned before and owns no
/// more. Nowhere else does a pixel get another owner.
#[derive(Drop)]
pub(crate) struct Zone {
    pub new: Region,
    pub given: Region,
}

/// What window `w` owns afterwards, and what it gives up.
pub(crate) fn zone_of(before: &Stack, after: &Stack, w: u16) -> Result<Zone, NoMemory>
    ensures { IfOk result (IsZone before.now after.now w) }
{
    let new = after.visible(w)?;
    let old = before.visible(w)?;
    let given = beside(&old, &new)?;
    Ok(Zone { new, given })
}

/// Whether window `u` isn't `w`, and its frame has no pixel that `w` owns before or after, as that
/// of no window in front of it has. Then it keeps its pixels.
pub(crate) fn is_apart(before: &Stack, zone: &Zone, w: u16, u: u16) -> bool
    ensures other { result ≡ true → u ≡ w → ⊥ }
    ensures same { result ≡ true → (after : Windows) → OthersStay before.now after w
        → IsZone before.now after w zone.now → OwnsTheSame before.now after u }
{
    if u == w {
        return false;
    }
    !meets(before, u, &zone.given) && !meets(before, u, &zone.new)
}

/// What window `u`, which isn't the changed one and owned these pixels, owns afterwards. Only where
/// its frame has a pixel that the changed one gives up are the windows in front of it asked.
pub(crate) fn owned_after(
    before: &Stack,
    after: &Stack,
    zone: &Zone,
    u: u16,
    owned: &Region,
) -> Result<Region, NoMemory>
    requires { IsVisible owned.now before.now u }
    ensures { IfOk result (λ region. (w : ℕ) → (u ≡ w → ⊥) → OthersStay before.now after.now w
        → IsZone before.now after.now w zone.now → IsVisible region after.now u) }
{
    if meets(before, u, &zone.given) {
        return after.visible(u);
    }
    beside(owned, &zone.new)
}

/// Whether there is a window `u`, and its frame has a pixel of a region.
pub(crate) fn meets(stack: &Stack, u: u16, region: &Region) -> bool
    ensures { result ≡ false → CoversNone stack.now u region.now }
{
    match stack.frame(u) {
        Some(frame) => has_some(region, frame),
        None => false,
    }
}

/// Whether a region has a pixel of a rectangle.
pub(crate) fn has_some(region: &Region, rect: Rect) -> bool
    ensures { (result ≡ false) ↔ IsBeside rect region.now }
{
    for place in 0..region.count() {
        if meet(rect, region.rect_at(place).unwrap()) {
            return true;
        }
    }
    false
}

/// Whether two rectangles have a pixel in common.
fn meet(one: Rect, other: Rect) -> bool
    ensures { (result ≡ false) ↔ AreDisjoint one other }
{
    one.intersect(other).is_some()
}

/// What a region has beside another.
pub(crate) fn beside(region: &Region, other: &Region) -> Result<Region, NoMemory>
    ensures { IfOk result (λ rest. IsDifference rest region.now other.now) }
{
    let mut rest = region.copy()?;
    rest.exclude(other)?;
    Ok(rest)
}

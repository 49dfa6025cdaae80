ghost use Rattle.std.specs.Prelude.{◌≡◌, ◌↔◌, ◌<◌, ◌⊎◌, Ok, IfOk, IfErr, IsTrue, false, length};
ghost use Rattle.be_region.specs.Regions.{SamePixels};
ghost use Rattle.be_desk.specs.Affected.{AreAffected, AreApart, IsZone, OthersStay, OwnsNone};
ghost use Rattle.be_desk.specs.Affected.{OwnsTheSame};
ghost use Rattle.be_desk.specs.Changes as machine;
ghost use Rattle.be_desk.specs.Changes.{desk_after};
ghost use Rattle.be_desk.specs.Desks.{desk_of, IsAsked, IsRefusedFor, IsTaken};

use crate::desk::Desk;
use crate::fault::PlanFault;
use crate::next::next_of;
use crate::zone::{Zone, has_some, meets};
use be_geom::{Change, NoMemory, Rect};
use be_region::Region;
use be_stack::Stack;
use std::alloc::Global;

/// The windows that a change of window `w` alters, in ascending order: `w` itself, and each that
/// wins or loses pixels. It costs the rectangles of `w` before and after, and those of the windows
/// whose frames have a pixel of them, before the change or after it. No window in front of `w` is
/// asked for more than its frame.
pub fn affected(alloc: Global, desk: &Desk, w: u16, change: &Change) -> Result<Vec<u16>, PlanFault>
    requires { IsAsked (desk_of desk.now) w change.now }
    ensures names { IfOk result (λ names. (after : machine.Desk)
        → desk_after (desk_of desk.now) w change.now ≡ Ok after
        → AreAffected desk.now.stack after.windows w names.items) }
    ensures taken { IfOk result (λ _. IsTaken (desk_after (desk_of desk.now) w change.now)) }
    ensures refused { IfErr result (IsRefusedFor (desk_after (desk_of desk.now) w change.now)) }
{
    let next = next_of(desk, w, change)?;
    Ok(altered(alloc, &desk.stack, &next.stack, &next.zone, w)?)
}

/// Window `w`, and those that own other pixels of the one screen than of the other.
fn altered(
    alloc: Global,
    before: &Stack,
    after: &Stack,
    zone: &Zone,
    w: u16,
) -> Result<Vec<u16>, NoMemory>
    requires there { w < length before.now.windows }
    requires others { OthersStay before.now after.now w }
    requires zone { IsZone before.now after.now w zone.now }
    ensures { IfOk result (λ names. AreAffected before.now after.now w names.items) }
{
    let mut names = Vec::new(alloc);
    for u in 0..before.len() as u16 {
        if is_altered(before, after, zone, w, u)? {
            names.push(u)?;
        }
    }
    Ok(names)
}

/// Whether window `u` is `w`, or owns other pixels of the one screen than of the other: it loses
/// some of those that `w` owns afterwards, or wins some of those that `w` gives up.
fn is_altered(before: &Stack, after: &Stack, zone: &Zone, w: u16, u: u16) -> Result<bool, NoMemory>
    requires others { OthersStay before.now after.now w }
    requires zone { IsZone before.now after.now w zone.now }
    ensures { IfOk result (λ altered. IsTrue altered
        ↔ ((u ≡ w) ⊎ (OwnsTheSame before.now after.now u → ⊥))) }
{
    if u == w {
        return Ok(true);
    }
    if owns_some(before, u, &zone.new)? {
        return Ok(true);
    }
    owns_some(after, u, &zone.given)
}

/// Whether a window owns a pixel of a region. Where its frame has none, nothing more is asked.
fn owns_some(stack: &Stack, u: u16, region: &Region) -> Result<bool, NoMemory>
    ensures { IfOk result (λ some. (some ≡ false) ↔ OwnsNone stack.now u region.now) }
{
    if !meets(stack, u, region) {
        return Ok(false);
    }
    let own = stack.visible(u)?;
    Ok(have_common(&own, region))
}

/// Whether two regions have a pixel in common.
fn have_common(one: &Region, other: &Region) -> bool
    ensures { (result ≡ false) ↔ AreApart one.now other.now }
{
    for place in 0..one.count() {
        if has_some(other, one.rect_at(place).unwrap()) {
            return true;
        }
    }
    false
}

/// Whether two regions have the same pixels. They have the same rectangles then.
pub(crate) fn has_same_pixels(one: &Region, other: &Region) -> bool
    ensures { IsTrue result ↔ SamePixels one.now other.now }
{
    if one.count() != other.count() {
        return false;
    }
    for place in 0..one.count() {
        if !is_same(one.rect_at(place).unwrap(), other.rect_at(place).unwrap()) {
            return false;
        }
    }
    true
}

fn is_same(one: Rect, other: Rect) -> bool
    ensures { IsTrue result ↔ (one ≡ other) }
{
    one == other
}

ghost use Rattle.std.specs.Prelude.{◌≡◌, ℤ, pos, ◌≤ℤ◌, ◌<ℤ◌, ◌≤◌, ◌++◌, true, false, [], All};
ghost use Rattle.std.specs.Prelude.{length, int_lt, int_le, IfOk, IfNone, IfSome};
ghost use Rattle.std.specs.List.{AllPairs, AllWithin};
ghost use Rattle.be_region.specs.Regions.{region_has, IsNotEmpty};
ghost use Rattle.be_region.specs.Bands.{IsBefore, AreBands};
ghost use Rattle.be_region.specs.Parts.{IsCut};

use be_geom::{NoMemory, Rect};
use std::alloc::Global;

/// For how many rectangles there is room at first, beside those above and those below.
const ROOM: usize = 16;

/// Bands, cut between rows.
#[derive(Clone, Copy)]
pub(crate) struct Parts<'a> {
    /// Those that end above the first of the rows.
    pub above: &'a [Rect],
    pub middle: &'a [Rect],
    /// Those that begin below the last of the rows.
    pub below: &'a [Rect],
}

/// Cuts bands above a row and below another.
pub(crate) fn cut(rects: &[Rect], first: i32, last: i32) -> Parts<'_>
    requires { AreBands rects.now }
    ensures { IsCut rects.now first last result.above.now result.middle.now result.below.now }
{
    let (above, rest) = rects.split_at(ending_above(rects, first));
    let (middle, below) = rest.split_at(beginning_until(rest, last));
    Parts {
        above,
        middle,
        below,
    }
}

/// How many of the rectangles end above the row.
fn ending_above(rects: &[Rect], y: i32) -> usize
    requires { AreBands rects.now }
    ensures within { result ≤ length rects.now }
    ensures above { AllWithin (λ r. int_lt r.bottom y ≡ true) rects.now 0 result }
    ensures rest { AllWithin (λ r. int_lt r.bottom y ≡ false) rects.now result (length rects.now) }
{
    rects.partition_point(|rect| ends_above(*rect, y))
}

fn ends_above(rect: Rect, y: i32) -> bool
    ensures { result ≡ int_lt rect.bottom y }
{
    i32::from(rect.bottom) < y
}

/// How many of the rectangles begin above the row or in it.
fn beginning_until(rects: &[Rect], y: i32) -> usize
    requires full { All IsNotEmpty rects.now }
    requires order { AllPairs IsBefore rects.now }
    ensures within { result ≤ length rects.now }
    ensures until { AllWithin (λ r. int_le r.top y ≡ true) rects.now 0 result }
    ensures below { AllWithin (λ r. int_le r.top y ≡ false) rects.now result (length rects.now) }
{
    rects.partition_point(|rect| begins_until(*rect, y))
}

fn begins_until(rect: Rect, y: i32) -> bool
    ensures { result ≡ int_le rect.top y }
{
    i32::from(rect.top) <= y
}

/// The row above all pixels of bands, and the row below them. None where there is no pixel.
pub(crate) fn rows_beside(rects: &[Rect]) -> Option<(i32, i32)>
    requires { AreBands rects.now }
    ensures none { IfNone result (rects.now ≡ []) }
    ensures above { IfSome result (λ rows. (x y : ℤ) → y ≤ℤ rows.0
        → region_has rects.now x y ≡ false) }
    ensures below { IfSome result (λ rows. (x y : ℤ) → rows.1 ≤ℤ y
        → region_has rects.now x y ≡ false) }
{
    let first = rects.first()?;
    let last = rects.last()?;
    Some((i32::from(first.top) - 1, i32::from(last.bottom) + 1))
}

/// A copy of the rectangles above, with room for those below and a few more.
pub(crate) fn begun(alloc: Global, parts: Parts<'_>) -> Result<Vec<Rect>, NoMemory>
    ensures { IfOk result (λ v. v.items ≡ parts.entry.above.now) }
{
    let count = parts
        .above
        .len()
        .saturating_add(parts.below.len())
        .saturating_add(ROOM);
    let mut rects = Vec::with_capacity(alloc, count)?;
    rects.extend_from_slice(parts.above)?;
    Ok(rects)
}

/// The rectangles, and behind them a copy of those below.
pub(crate) fn ended(mut rects: Vec<Rect>, parts: Parts<'_>) -> Result<Vec<Rect>, NoMemory>
    ensures { IfOk result (λ v. v.items ≡ rects.items ++ parts.entry.below.now) }
{
    rects.extend_from_slice(parts.below)?;
    Ok(rects)
}

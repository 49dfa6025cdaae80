ghost use Rattle.std.specs.Prelude.{◌≡◌, ℤ, Bool, false, All, length, take, drop, IfOk};
ghost use Rattle.std.specs.List.{AllPairs};
ghost use Rattle.be_region.specs.Regions.{region_has, IsNotEmpty};
ghost use Rattle.be_region.specs.Bands.{IsBefore, AreBands};
ghost use Rattle.be_region.specs.Rules.{keeps};

use crate::bands::Bands;
use crate::line::keep_columns;
use crate::parts::{begun, cut, ended, rows_beside};
use crate::rows::{Rows, are_over, last_row_of_both};
use crate::rule::Rule;
use be_geom::{NoMemory, Rect};
use smallvec::SmallVec;
use std::alloc::Global;

/// The bands of the pixels that are kept of two regions.
pub(crate) fn merged(
    alloc: Global,
    one: &[Rect],
    other: &[Rect],
    rule: Rule,
) -> Result<Vec<Rect>, NoMemory>
    requires one { AreBands one.now }
    requires other { AreBands other.now }
    ensures bands { IfOk result (λ v. AreBands v.items) }
    ensures pixels { IfOk result (λ v. (x y : ℤ) → region_has v.items x y
        ≡ keeps rule (region_has one.now x y) (region_has other.now x y)) }
{
    match rule {
        Rule::Union if one.len() < other.len() => changed(alloc, other, one, Rule::Union),
        Rule::Union => changed(alloc, one, other, Rule::Union),
        Rule::Difference => changed(alloc, one, other, Rule::Difference),
        Rule::Intersection => walked(Vec::new(alloc), one, other, Rule::Intersection),
    }
}

/// The same where a pixel that the other region doesn't have is kept as it is: the bands that touch
/// no row of that region stay.
fn changed(alloc: Global, one: &[Rect], other: &[Rect], rule: Rule) -> Result<Vec<Rect>, NoMemory>
    requires one { AreBands one.now }
    requires other { AreBands other.now }
    requires alone { (p : Bool) → keeps rule p false ≡ p }
    ensures bands { IfOk result (λ v. AreBands v.items) }
    ensures pixels { IfOk result (λ v. (x y : ℤ) → region_has v.items x y
        ≡ keeps rule (region_has one.now x y) (region_has other.now x y)) }
{
    let Some((first, last)) = rows_beside(other) else {
        return Ok(Vec::from_slice(alloc, one)?);
    };
    let parts = cut(one, first, last);
    let kept = begun(alloc, parts)?;
    let rects = walked(kept, parts.middle, other, rule)?;
    ended(rects, parts)
}

/// The rectangles, and behind them the bands of the pixels that are kept of two regions, by a walk
/// down both.
fn walked(rects: Vec<Rect>, one: &[Rect], other: &[Rect], rule: Rule) -> Result<Vec<Rect>, NoMemory>
    requires one_full { All IsNotEmpty one.now }
    requires one_order { AllPairs IsBefore one.now }
    requires other_full { All IsNotEmpty other.now }
    requires other_order { AllPairs IsBefore other.now }
    ensures first { IfOk result (λ v. take (length rects.items) v.items ≡ rects.items) }
    ensures bands { IfOk result (λ v. AreBands (drop (length rects.items) v.items)) }
    ensures pixels { IfOk result (λ v. (x y : ℤ)
        → region_has (drop (length rects.items) v.items) x y
        ≡ keeps rule (region_has one.now x y) (region_has other.now x y)) }
{
    let mut spans = SmallVec::new(*rects.allocator());
    let mut bands = Bands::behind(rects);
    let mut one = Rows::new(one);
    let mut other = Rows::new(other);
    let mut y = one.first_row().min(other.first_row());
    'walk: while !are_over(&one, &other) {
        let bottom = last_row_of_both(&one, &other, y);
        keep_columns(&mut spans, one.line(y), other.line(y), rule)?;
        bands.add(&mut spans, y as i16, bottom as i16)?;
        one = one.below(bottom);
        other = other.below(bottom);
        y = bottom + 1;
    }
    bands.finish()
}

ghost use Rattle.std.specs.Prelude.{IfOk};
ghost use Rattle.be_region.specs.Regions.{SamePixels, IsUnion, IsDifference, IsIntersection};

use be_geom::{NoMemory, Rect};
use be_region::Region;
use std::alloc::Global;

/// The pixels of rectangles, put together one by one.
pub fn covered(alloc: Global, frames: &[Rect]) -> Result<Region, NoMemory>
    ensures { IfOk result (λ region. SamePixels region frames.now) }
{
    let mut region = Region::empty(alloc);
    for frame in frames {
        region.include(&Region::from_rect(alloc, *frame)?)?;
    }
    Ok(region)
}

/// Puts the rectangles together in each round.
pub fn build_rounds(alloc: Global, frames: &[Rect], rounds: u32) -> Result<u64, NoMemory> {
    let mut rectangles = 0u64;
    for _round in 0..rounds {
        rectangles = rectangles.wrapping_add(covered(alloc, frames)?.count() as u64);
    }
    Ok(rectangles)
}

/// Makes the union, the difference and the intersection in each round.
pub fn stack_rounds(one: &Region, other: &Region, rounds: u32) -> Result<u64, NoMemory> {
    let mut rectangles = 0u64;
    for _round in 0..rounds {
        for region in [
            union_of(one, other)?,
            difference_of(one, other)?,
            intersection_of(one, other)?,
        ] {
            rectangles = rectangles.wrapping_add(region.count() as u64);
        }
    }
    Ok(rectangles)
}

fn union_of(one: &Region, other: &Region) -> Result<Region, NoMemory>
    ensures { IfOk result (λ region. IsUnion region one.now other.now) }
{
    let mut region = one.copy()?;
    region.include(other)?;
    Ok(region)
}

fn difference_of(one: &Region, other: &Region) -> Result<Region, NoMemory>
    ensures { IfOk result (λ region. IsDifference region one.now other.now) }
{
    let mut region = one.copy()?;
    region.exclude(other)?;
    Ok(region)
}

fn intersection_of(one: &Region, other: &Region) -> Result<Region, NoMemory>
    ensures { IfOk result (λ region. IsIntersection region one.now other.now) }
{
    let mut region = one.copy()?;
    region.intersect(other)?;
    Ok(region)
}

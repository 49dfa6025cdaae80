ghost use Rattle.std.specs.Prelude.{IfOk};
ghost use Rattle.be_region.specs.Regions.{SamePixels};

use be_geom::{NoMemory, Rect};
use be_region::Region;
use std::alloc::Global;

/// The pixels of rectangles, put together by halves.
pub(crate) fn union_of(alloc: Global, rects: &[Rect]) -> Result<Region, NoMemory>
    ensures { IfOk result (λ region. SamePixels region rects.now) }
{
    match rects {
        [] => Ok(Region::empty(alloc)),
        [rect] => Region::from_rect(alloc, *rect),
        _ => {
            let (front, back) = rects.split_at(rects.len() / 2);
            let mut region = union_of(alloc, front)?;
            region.include(&union_of(alloc, back)?)?;
            Ok(region)
        }
    }
}

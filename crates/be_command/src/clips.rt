ghost use Rattle.std.specs.Prelude.{◌≡◌, IfOk};
ghost use Rattle.be_region.specs.Regions.{SamePixels};

use crate::Clip;
use be_geom::{NoMemory, Rect};
use be_region::Region;
use std::alloc::Global;

impl Clip {
    /// The pixels of all its rectangles. The set was made when the command was read, so that this
    /// takes no memory.
    pub fn into_region(self) -> Region
        ensures { SamePixels result self }
    {
        self.region
    }

    pub(crate) fn of(alloc: Global, rects: Vec<Rect>) -> Result<Clip, NoMemory>
        ensures { IfOk result (λ clip. clip ≡ rects.items) }
    {
        let region = pixels_of(alloc, &rects)?;
        Ok(Clip { rects, region })
    }

    // The same rectangles and pixels, in memory of their own.
    pub(crate) fn copy(&self, alloc: Global) -> Result<Clip, NoMemory>
        ensures { IfOk result (λ clip. clip ≡ self.now) }
    {
        Ok(Clip {
            rects: Vec::from_slice(alloc, &self.rects)?,
            region: self.region.copy()?,
        })
    }

    pub(crate) fn rects(&self) -> &[Rect]
        ensures { result.now ≡ self.now }
    {
        self.rects.as_slice()
    }
}

// The pixels of some rectangles.
fn pixels_of(alloc: Global, rects: &[Rect]) -> Result<Region, NoMemory>
    ensures { IfOk result (λ region. SamePixels region rects.now) }
{
    let mut region = Region::empty(alloc);
    for rect in rects {
        region.include(&Region::from_rect(alloc, *rect)?)?;
    }
    Ok(region)
}

ghost use Rattle.std.specs.Prelude.{◌≡◌, ℤ, None, IfOk, if◌then◌else◌};
ghost use Rattle.be_region.specs.Regions.{region_has, IsIntersection};
ghost use Rattle.be_span.specs.Spans.{cell_in};

use crate::buffer::SpanBuf;
use be_geom::NoMemory;
use be_region::Region;

impl SpanBuf {
    /// The pixels that a region has too, with their cells.
    pub fn part(&self, region: &Region) -> Result<SpanBuf, NoMemory>
        ensures region { IfOk result (λ part.
            IsIntersection part.rects self.now.rects region.now) }
        ensures cells { IfOk result (λ part. (x y : ℤ) → cell_in part x y
            ≡ (if region_has region.now x y then cell_in self.now x y else None)) }
    {
        let mut both = self.region().copy()?;
        both.intersect(region)?;
        let mut part = SpanBuf::prepare(self.allocator(), both)?;
        part.lay(self, 0, 0);
        Ok(part)
    }
}

ghost use Rattle.std.specs.Prelude.{◌≡◌, ℤ, IfOk, OnOk, IfErr, OnErr, if◌then◌else◌};
ghost use Rattle.be_region.specs.Regions.{region_has, IsUnion};
ghost use Rattle.be_span.specs.Spans.{cell_in};

use crate::buffer::SpanBuf;
use be_geom::NoMemory;
use thiserror::Error;

/// Why a buffer wasn't appended; it is handed back.
#[derive(Debug, Drop, Error)]
pub enum AppendFault {
    /// There was no memory left.
    #[error("no memory")]
    NoMemory(SpanBuf),
}

impl SpanBuf {
    ghost use Rattle.be_span.specs.Faults.{HandsBack};

    /// Adds the pixels of another buffer with their cells. A pixel of both gets the other's cell.
    pub fn append(&mut self, other: SpanBuf) -> Result<(), AppendFault>
        ensures region { OnOk result (IsUnion self.new.rects self.old.rects other.rects) }
        ensures cells { OnOk result ((x y : ℤ) → cell_in self.new x y
            ≡ (if region_has other.rects x y then cell_in other x y else cell_in self.old x y)) }
        ensures err { OnErr result (self.new ≡ self.old) }
        ensures back { IfErr result (λ fault. HandsBack fault other) }
    {
        match joined(self, &other) {
            Ok(whole) => {
                *self = whole;
                Ok(())
            }
            Err(NoMemory) => Err(AppendFault::NoMemory(other)),
        }
    }
}

/// The pixels of both, with the cells of the second where both have one.
fn joined(one: &SpanBuf, other: &SpanBuf) -> Result<SpanBuf, NoMemory>
    ensures region { IfOk result (λ whole. IsUnion whole.rects one.now.rects other.now.rects) }
    ensures cells { IfOk result (λ whole. (x y : ℤ) → cell_in whole x y
        ≡ (if region_has other.now.rects x y then cell_in other.now x y
        else cell_in one.now x y)) }
{
    let mut both = one.region().copy()?;
    both.include(other.region())?;
    let mut whole = SpanBuf::prepare(one.allocator(), both)?;
    whole.lay(one, 0, 0);
    whole.lay(other, 0, 0);
    Ok(whole)
}

//! Which activities have a legal entry, as far as that is known.
ghost use Rattle.std.specs.Prelude.{IfOk};
ghost use Rattle.be_serial.specs.Known.{AllStale};

use be_geom::NoMemory;
use std::alloc::Global;

/// For each activity whether it has a legal entry, and whether that has to be asked anew.
#[derive(Drop)]
pub(crate) struct Answers {
    pub(crate) can: Vec<bool>,
    pub(crate) stale: Vec<bool>,
}

impl Answers {
    /// Each activity has to be asked.
    pub(crate) fn new(alloc: Global, many: u32) -> Result<Answers, NoMemory>
        ensures { IfOk result (λ a. AllStale many a.can.items a.stale.items) }
    {
        let mut can = Vec::with_capacity(alloc, many as usize)?;
        let mut stale = Vec::with_capacity(alloc, many as usize)?;
        for _activity in 0..many {
            can.push_reserved(false);
            stale.push_reserved(true);
        }
        Ok(Answers { can, stale })
    }
}

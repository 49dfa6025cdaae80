use crate::changes::{drag_rounds, pixel_rounds};
use crate::frames::{Random, columns, rows, windows};
use crate::stacks::{build_rounds, covered, stack_rounds};
use be_geom::NoMemory;
use std::alloc::Global;

/// What is done in a round.
#[derive(Clone, Copy, Debug, PartialEq, Eq)]
pub enum Kind {
    /// So many random windows are put together one by one.
    Build,
    /// The union, the difference and the intersection of two stacks of random windows.
    Stacks,
    /// The union, the difference and the intersection of two grids: columns and rows.
    Grid,
    /// A window is dragged so often in front of a stack of random windows.
    Drags,
    /// So many pixels are taken out of a stack of random windows and put back.
    Pixels,
}

/// What is done how often: `size` is the number of windows or columns, and `count` that of the
/// other windows, rows, drags or pixels.
#[derive(Clone, Copy, Debug, PartialEq, Eq)]
pub struct Work {
    pub kind: Kind,
    pub size: u16,
    pub count: u16,
    pub rounds: u32,
}

/// Does the work, and gives the number of rectangles that the regions had which it made.
pub fn rectangles_of(alloc: Global, work: Work) -> Result<u64, NoMemory> {
    let Work {
        kind,
        size,
        count,
        rounds,
    } = work;
    let mut random = Random::new();
    match kind {
        Kind::Build => build_rounds(alloc, &windows(alloc, &mut random, size)?, rounds),
        Kind::Stacks => {
            let one = covered(alloc, &windows(alloc, &mut random, size)?)?;
            let other = covered(alloc, &windows(alloc, &mut random, count)?)?;
            stack_rounds(&one, &other, rounds)
        }
        Kind::Grid => {
            let one = covered(alloc, &columns(alloc, size, count)?)?;
            let other = covered(alloc, &rows(alloc, size, count)?)?;
            stack_rounds(&one, &other, rounds)
        }
        Kind::Drags => {
            let behind = covered(alloc, &windows(alloc, &mut random, size)?)?;
            drag_rounds(alloc, &behind, count, rounds)
        }
        Kind::Pixels => { pixel_rounds(alloc, &windows(alloc, &mut random, size)?, count, rounds) }
    }
}

ghost use Rattle.std.specs.Prelude.{ℤ, pos, ◌≤ℤ◌, ◌<ℤ◌, ◌<◌, ◌≤◌};

use be_geom::Rect;
use std::alloc::{AllocError, Global};

/// Numbers that look random and are the same in each run.
#[derive(Drop)]
pub struct Random(u64);

impl Random {
    /// Each run begins with this one.
    pub fn new() -> Random {
        Random(2026)
    }

    /// A number below the end.
    fn below(&mut self, end: u16) -> i16
        requires some { 0 < end }
        requires few { end ≤ 1024 }
        ensures low { pos 0 ≤ℤ result }
        ensures high { result <ℤ pos end }
    {
        self.0 = self
            .0
            .wrapping_mul(6364136223846793005)
            .wrapping_add(1442695040888963407);
        ((self.0 >> 33) % u64::from(end)) as i16
    }

    fn frame(&mut self) -> Rect {
        let left = self.below(1024);
        let top = self.below(768);
        Rect {
            left,
            top,
            right: left + self.below(400),
            bottom: top + self.below(300),
        }
    }
}

/// The frames of so many windows.
pub fn windows(alloc: Global, random: &mut Random, count: u16) -> Result<Vec<Rect>, AllocError> {
    let mut frames = Vec::new(alloc);
    for _number in 0..count {
        frames.push(random.frame())?;
    }
    Ok(frames)
}

/// So many columns, each a pixel wide and a pixel from the next, which cross so many rows.
pub fn columns(alloc: Global, columns: u16, rows: u16) -> Result<Vec<Rect>, AllocError> {
    let mut frames = Vec::new(alloc);
    for number in 0..columns {
        let x = place(number);
        frames.push(Rect {
            left: x,
            top: 0,
            right: x,
            bottom: place(rows),
        })?;
    }
    Ok(frames)
}

/// So many rows, each a pixel high and a pixel from the next, which cross so many columns.
pub fn rows(alloc: Global, columns: u16, rows: u16) -> Result<Vec<Rect>, AllocError> {
    let mut frames = Vec::new(alloc);
    for number in 0..rows {
        let y = place(number);
        frames.push(Rect {
            left: 0,
            top: y,
            right: place(columns),
            bottom: y,
        })?;
    }
    Ok(frames)
}

/// The place of the line of this number, from the first at 0.
fn place(number: u16) -> i16 {
    (2 * i32::from(number)).min(i32::from(i16::MAX)) as i16
}

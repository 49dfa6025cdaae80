ghost use Rattle.std.specs.Prelude.{◌≡◌, ℤ, ◌&&◌, ◌||◌, not, OnOk};
ghost use Rattle.be_geom.specs.Rects.{rect_has};
ghost use Rattle.be_region.specs.Regions.{region_has};

use crate::stacks::covered;
use be_geom::{NoMemory, Rect};
use be_region::Region;
use std::alloc::Global;

/// Drags a window in front of the region, a step of three columns and two rows each time.
pub fn drag_rounds(
    alloc: Global,
    behind: &Region,
    drags: u16,
    rounds: u32,
) -> Result<u64, NoMemory> {
    let mut rectangles = 0u64;
    for _round in 0..rounds {
        let mut seen = behind.copy()?;
        for step in 0..drags {
            drag(alloc, &mut seen, frame_at(step), frame_at(step + 1))?;
            rectangles = rectangles.wrapping_add(seen.count() as u64);
        }
    }
    Ok(rectangles)
}

/// Where the window is after so many steps; it begins again where it would leave the screen.
fn frame_at(step: u16) -> Rect {
    let left = (step % 256 * 3) as i16;
    let top = (step % 256 * 2) as i16;
    Rect {
        left,
        top,
        right: left + 255,
        bottom: top + 255,
    }
}

/// What is seen behind a window that goes from one place to another.
fn drag(alloc: Global, seen: &mut Region, old: Rect, new: Rect) -> Result<(), NoMemory>
    ensures { OnOk result ((x y : ℤ) → region_has seen.new x y
        ≡ ((region_has seen.old x y || rect_has old x y) && not (rect_has new x y))) }
{
    let covered = Region::from_rect(alloc, new)?;
    let mut freed = Region::from_rect(alloc, old)?;
    freed.exclude(&covered)?;
    seen.include(&freed)?;
    seen.exclude(&covered)?;
    Ok(())
}

/// Takes pixels of the rectangles out of them all and puts each back.
pub fn pixel_rounds(
    alloc: Global,
    frames: &[Rect],
    pixels: u16,
    rounds: u32,
) -> Result<u64, NoMemory> {
    let whole = covered(alloc, frames)?;
    let mut rectangles = 0u64;
    for _round in 0..rounds {
        let mut region = whole.copy()?;
        for number in 0..pixels {
            if let Some(pixel) = pixel_at(frames, number) {
                take_and_put_back(alloc, &mut region, pixel)?;
            }
            rectangles = rectangles.wrapping_add(region.count() as u64);
        }
    }
    Ok(rectangles)
}

/// A pixel near the left top of a rectangle, of each in turn.
fn pixel_at(frames: &[Rect], number: u16) -> Option<Rect> {
    let place = usize::from(number).checked_rem(frames.len())?;
    let frame = frames.get(place)?;
    let step = (number % 64) as i16;
    let x = frame.left.saturating_add(step).min(frame.right);
    let y = frame.top.saturating_add(step).min(frame.bottom);
    Some(Rect {
        left: x,
        top: y,
        right: x,
        bottom: y,
    })
}

/// Takes a pixel out of the region and puts it back.
fn take_and_put_back(alloc: Global, region: &mut Region, pixel: Rect) -> Result<(), NoMemory>
    ensures { OnOk result ((x y : ℤ) → region_has region.new x y
        ≡ (region_has region.old x y || rect_has pixel x y)) }
{
    let pixel = Region::from_rect(alloc, pixel)?;
    region.exclude(&pixel)?;
    region.include(&pixel)?;
    Ok(())
}

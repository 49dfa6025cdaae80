ghost use Rattle.std.specs.Prelude.{pos, ◌≤ℤ◌};

use be_geom::{NoMemory, OutOfRange, Point, Rect};
use be_region::Region;
use std::alloc::Global;
use std::process::Abort;
use std::test::Fail;

/// The pixels from -4 to 3 in both directions, row by row, one bit each.
type Pixels = u64;

fn rect(left: i16, top: i16, right: i16, bottom: i16) -> Rect {
    Rect {
        left,
        top,
        right,
        bottom,
    }
}

fn pixels_of_rect(rect: Rect) -> Pixels {
    let mut pixels = 0;
    for y in -4..4 {
        for x in -4..4 {
            pixels = (pixels << 1) | u64::from(rect.contains(Point { x, y }));
        }
    }
    pixels
}

fn pixels_of(region: &Region, dx: i32, dy: i32) -> Pixels {
    let mut pixels = 0;
    for y in -4..4i32 {
        for x in -4..4i32 {
            let inside = region.contains(x.wrapping_add(dx), y.wrapping_add(dy));
            pixels = (pixels << 1) | u64::from(inside);
        }
    }
    pixels
}

/// The pixels of the rectangles, one after another: none where they aren't canonical bands.
fn pixels_by_band(region: &Region) -> Option<Pixels> {
    let mut pixels = 0;
    let mut last: Option<Rect> = None;
    for place in 0..region.count() {
        let rect = region.rect_at(place)?;
        let more = pixels_of_rect(rect);
        if more == 0 || pixels & more != 0 || !comes_next(last, rect) {
            return None;
        }
        pixels |= more;
        last = Some(rect);
    }
    if region.count() == spans_of(pixels) {
        Some(pixels)
    } else {
        None
    }
}

/// Whether a rectangle may stand behind another: in its rows, right of it with a column between, or
/// below it.
fn comes_next(last: Option<Rect>, rect: Rect) -> bool {
    match last {
        Some(last) if last.top == rect.top => {
            last.bottom == rect.bottom && i32::from(last.right) + 1 < i32::from(rect.left)
        }
        Some(last) => last.bottom < rect.top,
        None => true,
    }
}

/// How many spans there are in the rows that differ from the row above.
fn spans_of(pixels: Pixels) -> usize {
    let mut spans = 0usize;
    let mut above = 0;
    for row in pixels.to_be_bytes() {
        if row != above {
            spans = spans.saturating_add((row & !(row << 1)).count_ones() as usize);
        }
        above = row;
    }
    spans
}

/// Whether each run from a pixel on holds what the pixels tell, and no further column.
fn runs_agree(region: &Region) -> bool {
    for y in -4..4 {
        for x in -4..4 {
            let (inside, last) = region.run_at(x, y);
            if inside != region.contains(x, y) || last < x {
                return false;
            }
            for z in x..5 {
                if (z <= last) != (region.contains(z, y) == inside) && z <= last.saturating_add(1) {
                    return false;
                }
            }
        }
    }
    true
}

/// The smallest rectangle that has the pixels.
fn frame_of_pixels(mut pixels: Pixels) -> Option<Rect> {
    let mut frame: Option<Rect> = None;
    for y in -4..4 {
        for x in -4..4 {
            if pixels >> 63 == 1 {
                let old = frame.unwrap_or(rect(x, y, x, y));
                frame = Some(rect(
                    old.left.min(x),
                    old.top.min(y),
                    old.right.max(x),
                    old.bottom.max(y),
                ));
            }
            pixels <<= 1;
        }
    }
    frame
}

#[derive(Drop)]
struct Random(u64);

impl Random {
    /// A number below 8.
    fn next(&mut self) -> i16
        ensures low { pos 0 ≤ℤ result }
        ensures high { result ≤ℤ pos 7 }
    {
        self.0 = self
            .0
            .wrapping_mul(6364136223846793005)
            .wrapping_add(1442695040888963407);
        (self.0 >> 61) as i16
    }

    fn rect(&mut self) -> Rect {
        let left = self.next() - 4;
        let top = self.next() - 4;
        let right = (left + self.next() / 2 - 1).min(3);
        let bottom = (top + self.next() / 2).min(3);
        rect(left, top, right, bottom)
    }

    /// A region made in six steps, with the plain set of its pixels.
    fn region(&mut self, alloc: Global) -> Result<(Region, Pixels), NoMemory> {
        let mut region = Region::empty(alloc);
        let mut pixels = 0;
        for _ in 0..6 {
            let rect = self.rect();
            let other = Region::from_rect(alloc, rect)?;
            if self.next() < 5 {
                region.include(&other)?;
                pixels |= pixels_of_rect(rect);
            } else {
                region.exclude(&other)?;
                pixels &= !pixels_of_rect(rect);
            }
        }
        Ok((region, pixels))
    }
}

/// Asserts that a region has these pixels, by each way to ask it.
fn assert_alone(rt: &impl Abort, case: i32, region: &Region, pixels: Pixels) {
    let found = (
        pixels_of(region, 0, 0),
        pixels_by_band(region),
        region.frame(),
    );
    same!(rt; found, (pixels, Some(pixels), frame_of_pixels(pixels)), (case, region));
    same!(rt; runs_agree(region), true, (case, region));
}

fn united(one: &Region, other: &Region) -> Result<Option<Pixels>, NoMemory> {
    let mut union = one.copy()?;
    union.include(other)?;
    Ok(pixels_by_band(&union))
}

fn left_over(one: &Region, other: &Region) -> Result<Option<Pixels>, NoMemory> {
    let mut rest = one.copy()?;
    rest.exclude(other)?;
    Ok(pixels_by_band(&rest))
}

fn shared(one: &Region, other: &Region) -> Result<Option<Pixels>, NoMemory> {
    let mut both = one.copy()?;
    both.intersect(other)?;
    Ok(pixels_by_band(&both))
}

#[test]
fn agrees_with_plain_sets(rt: HostRuntime) -> Result<(), Fail> {
    let mut random = Random(2026);
    for case in 0..250 {
        let (a, a_pixels) = random.region(rt.alloc())?;
        let (b, b_pixels) = random.region(rt.alloc())?;
        assert_alone(&rt, case, &a, a_pixels);
        same!(rt; united(&a, &b)?, Some(a_pixels | b_pixels), (case, &a, &b));
        same!(rt; left_over(&a, &b)?, Some(a_pixels & !b_pixels), (case, &a, &b));
        same!(rt; shared(&a, &b)?, Some(a_pixels & b_pixels), (case, &a, &b));
        let (dx, dy) = (i32::from(random.next()) * 100, i32::from(random.next()) - 4);
        let mut moved = a;
        let found = (moved.offset(dx, dy), pixels_of(&moved, dx, dy));
        same!(rt; found, (Ok(()), a_pixels), (case, &moved));
    }
    Ok(())
}

/// Four columns and four rows, without the four pixels in the middle.
fn holed(alloc: Global) -> Result<Region, NoMemory> {
    let mut region = Region::from_rect(alloc, rect(0, 0, 3, 3))?;
    region.exclude(&Region::from_rect(alloc, rect(1, 1, 2, 2))?)?;
    Ok(region)
}

#[test]
fn cuts_a_hole(rt: HostRuntime) -> Result<(), Fail> {
    let mut region = holed(rt.alloc())?;
    same!(rt; (region.frame(), region.count()), (Some(rect(0, 0, 3, 3)), 4));
    for (place, rect) in [
        (0, rect(0, 0, 3, 0)),
        (1, rect(0, 1, 0, 2)),
        (2, rect(3, 1, 3, 2)),
        (3, rect(0, 3, 3, 3)),
    ] {
        same!(rt; region.rect_at(place), Some(rect), place);
    }
    let pixels = pixels_of(&region, 0, 0);
    region.include(&holed(rt.alloc())?)?;
    same!(rt; (pixels_of(&region, 0, 0), region.count()), (pixels, 4));
    Ok(())
}

/// Pixels, each with whether the region has it.
const INSIDE: [(i32, i32, bool); 3] = [(1, 1, false), (3, 2, true), (65536, 0, false)];

const RUNS: [(i32, i32, (bool, i32)); 9] = [
    (-5, 0, (false, -1)),
    (0, 0, (true, 3)),
    (0, 1, (true, 0)),
    (1, 2, (false, 2)),
    (3, 2, (true, 3)),
    (4, 2, (false, 2147483647)),
    (0, -1, (false, 2147483647)),
    (0, 4, (false, 2147483647)),
    (2147483647, 3, (false, 2147483647)),
];

#[test]
fn goes_round_a_hole(rt: HostRuntime) -> Result<(), Fail> {
    let region = holed(rt.alloc())?;
    for (x, y, inside) in &INSIDE {
        same!(rt; region.contains(*x, *y), *inside, (*x, *y));
    }
    for (x, y, run) in &RUNS {
        same!(rt; region.run_at(*x, *y), *run, (*x, *y));
    }
    Ok(())
}

#[test]
fn has_no_pixel(rt: HostRuntime) -> Result<(), Fail> {
    let empty = Region::empty(rt.alloc());
    same!(rt; (empty.count(), empty.rect_at(0), empty.frame()), (0, None, None));
    same!(rt; Region::from_rect(rt.alloc(), rect(1, 0, 0, 0))?.count(), 0);
    Ok(())
}

#[test]
fn goes_to_and_fro(rt: HostRuntime) -> Result<(), Fail> {
    let mut region = Region::from_rect(rt.alloc(), rect(0, 0, 9, 9))?;
    for step in 0..100i16 {
        let pixel = Region::from_rect(
            rt.alloc(),
            rect(step % 10, step / 10, step % 10, step / 10),
        )?;
        region.exclude(&pixel)?;
        same!(rt; region.count() <= 4, true, (step, &region));
        region.include(&pixel)?;
        same!(rt; region.count(), 1, (step, &region));
    }
    same!(rt; region.rect_at(0), Some(rect(0, 0, 9, 9)));
    Ok(())
}

/// Ways to go, each with whether the region stays in its range.
const MOVES: [(i32, i32, bool); 8] = [
    (1, 0, false),
    (0, -1, false),
    (-32768, 0, false),
    (0, 32768, false),
    (2147483647, 0, false),
    (0, -2147483648, false),
    (-32767, 32767, true),
    (32767, -32767, true),
];

#[test]
fn stays_in_its_range(rt: HostRuntime) -> Result<(), Fail> {
    let mut region = Region::from_rect(rt.alloc(), rect(32766, 0, 32767, 0))?;
    region.include(&Region::from_rect(rt.alloc(), rect(-1, -32768, 0, -32767))?)?;
    for (dx, dy, stays) in &MOVES {
        let due = if *stays { Ok(()) } else { Err(OutOfRange) };
        same!(rt; region.offset(*dx, *dy), due, (*dx, *dy));
    }
    same!(rt; region.frame(), Some(rect(-1, -32768, 32767, 0)));
    Ok(())
}

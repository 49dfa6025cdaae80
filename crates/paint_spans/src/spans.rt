ghost use Rattle.std.specs.Prelude.{◌≡◌, ℤ, ◌-ℤ◌, ◌≤ℤ◌, pos};
ghost use Rattle.be_span.specs.Spans.{cell_in, laid};

use be_color::Rgb;
use be_geom::{NoMemory, Rect};
use be_region::Region;
use be_span::{Fill, SpanBuf};
use cell_sums::sum_of_spans;
use std::alloc::Global;

/// A window of 1,000 by 700 pixels from this column on.
fn window(alloc: Global, left: i16) -> Result<Region, NoMemory>
    requires low { pos 0 ≤ℤ left }
    requires high { left ≤ℤ pos 1 }
{
    Region::from_rect(
        alloc,
        Rect {
            left,
            top: 0,
            right: left + 999,
            bottom: 699,
        },
    )
}

/// Fills a window.
pub fn fill_rounds(alloc: Global, rounds: u32) -> Result<u64, NoMemory> {
    let mut whole = half_white(alloc)?;
    for _round in 0..rounds {
        fill(&mut whole, 999);
    }
    Ok(sum_of_spans(&whole))
}

/// A window whose left half is white, and the rest black.
fn half_white(alloc: Global) -> Result<SpanBuf, NoMemory> {
    let mut whole = SpanBuf::prepare(alloc, window(alloc, 0)?)?;
    fill(&mut whole, 499);
    Ok(whole)
}

/// Fills the first rectangle of a buffer up to a column.
fn fill(spans: &mut SpanBuf, last: i16) {
    if spans.region().count() == 0 {
        return;
    }
    let span = spans.span(0);
    let mut rect = span.rect();
    rect.right = rect.right.min(last);
    if rect.left <= rect.right && rect.top <= rect.bottom {
        spans.paint(span, rect, &Fill { rgb: Rgb::WHITE });
    }
}

/// Moves a window by a pixel, to and fro.
pub fn move_rounds(alloc: Global, rounds: u32) -> Result<u64, NoMemory> {
    let mut here = half_white(alloc)?;
    let mut there = SpanBuf::prepare(alloc, window(alloc, 1)?)?;
    for round in 0..rounds {
        if round % 2 == 0 {
            shift(&mut here, 1, &mut there);
        } else {
            shift(&mut there, -1, &mut here);
        }
    }
    Ok(sum_of_spans(&here).wrapping_add(sum_of_spans(&there)))
}

fn shift(from: &mut SpanBuf, dx: i32, to: &mut SpanBuf)
    ensures { (x y : ℤ) → cell_in to.new x y
        ≡ laid (cell_in from.old (x -ℤ dx) (y -ℤ pos 0)) (cell_in to.old x y) }
{
    SpanBuf::carry(from, dx, 0, to);
}

/// Cuts ten windows out of a window.
pub fn cut_rounds(alloc: Global, rounds: u32) -> Result<u64, NoMemory> {
    let whole = half_white(alloc)?;
    let mut seen = window(alloc, 0)?;
    for number in 0..10u8 {
        let left = 90 * i16::from(number);
        let top = 60 * i16::from(number);
        seen.exclude(&Region::from_rect(
            alloc,
            Rect {
                left,
                top,
                right: left + 99,
                bottom: top + 99,
            },
        )?)?;
    }
    let mut last = whole.part(&seen)?;
    for _round in 0..rounds {
        last = whole.part(&seen)?;
    }
    Ok(sum_of_spans(&last))
}

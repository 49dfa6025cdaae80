ghost use Rattle.std.specs.Prelude.{◌≡◌, ◌<◌, ◌≤◌, ℕ, ℤ, pos, negsuc, ◌+ℤ◌, ◌-ℤ◌, ◌≤ℤ◌, ◌<ℤ◌, ◌⊎◌};
ghost use Rattle.std.specs.Prelude.{true, false, None, if◌then◌else◌};
ghost use Rattle.be_geom.specs.Rects.{rect_has};
ghost use Rattle.be_region.specs.Regions.{region_has, IsNotEmpty};
ghost use Rattle.be_span.specs.Laid.{IsShift, IsLaidRun};
ghost use Rattle.be_span.specs.Runs.{HasRun};
ghost use Rattle.be_span.specs.Spans.{cell_in, laid};

use crate::buffer::SpanBuf;
use crate::places::{Pixel, columns, height_of, row_of, width_of};
use be_geom::Rect;

impl SpanBuf {
    /// Gives each pixel of `to` the cell of the pixel `dx` further left and `dy` further up in
    /// `from`, where there is one. Which cells `from` has afterwards isn't said.
    pub fn carry(from: &mut SpanBuf, dx: i32, dy: i32, to: &mut SpanBuf)
        ensures from { from.new.rects ≡ from.old.rects }
        ensures region { to.new.rects ≡ to.old.rects }
        ensures cells { (x y : ℤ) → cell_in to.new x y
            ≡ laid (cell_in from.old (x -ℤ dx) (y -ℤ dy)) (cell_in to.old x y) }
    {
        to.lay(from, dx, dy);
    }

    /// Gives each pixel the cell of the pixel `dx` further left and `dy` further up in `from`,
    /// where there is one.
    pub fn lay(&mut self, from: &SpanBuf, dx: i32, dy: i32)
        ensures region { self.new.rects ≡ self.old.rects }
        ensures cells { (x y : ℤ) → cell_in self.new x y
            ≡ laid (cell_in from.now (x -ℤ dx) (y -ℤ dy)) (cell_in self.old x y) }
    {
        let Some(old) = from.region().frame() else {
            return;
        };
        let Some(new) = self.region().frame() else {
            return;
        };
        let way = Pixel { x: dx, y: dy };
        if is_far(least_way(old, new), way, most_way(old, new)) {
            return;
        }
        lay_near(from, way, self);
    }
}

/// How far left and up a rectangle may go and still meet the other.
fn least_way(old: Rect, new: Rect) -> Pixel
    ensures across { result.x ≡ new.left -ℤ old.right }
    ensures down { result.y ≡ new.top -ℤ old.bottom }
    ensures near_across { negsuc 65534 ≤ℤ result.x }
    ensures near_down { negsuc 65534 ≤ℤ result.y }
{
    Pixel {
        x: i32::from(new.left) - i32::from(old.right),
        y: i32::from(new.top) - i32::from(old.bottom),
    }
}

/// How far right and down it may.
fn most_way(old: Rect, new: Rect) -> Pixel
    ensures across { result.x ≡ new.right -ℤ old.left }
    ensures down { result.y ≡ new.bottom -ℤ old.top }
    ensures near_across { result.x ≤ℤ pos 65535 }
    ensures near_down { result.y ≤ℤ pos 65535 }
{
    Pixel {
        x: i32::from(new.right) - i32::from(old.left),
        y: i32::from(new.bottom) - i32::from(old.top),
    }
}

fn is_far(least: Pixel, way: Pixel, most: Pixel) -> bool
    ensures far { result ≡ true → (way.x <ℤ least.x) ⊎ (most.x <ℤ way.x)
        ⊎ (way.y <ℤ least.y) ⊎ (most.y <ℤ way.y) }
    ensures left { result ≡ false → least.x ≤ℤ way.x }
    ensures right { result ≡ false → way.x ≤ℤ most.x }
    ensures up { result ≡ false → least.y ≤ℤ way.y }
    ensures down { result ≡ false → way.y ≤ℤ most.y }
{
    if way.x < least.x || most.x < way.x {
        return true;
    }
    way.y < least.y || most.y < way.y
}

/// Gives each pixel of `to` the cell of the pixel so much further left and up in `from`, where
/// there is one, and a pixel of the one region may come to be one of the other.
fn lay_near(from: &SpanBuf, way: Pixel, to: &mut SpanBuf)
    requires across { IsShift way.x }
    requires down { IsShift way.y }
    ensures region { to.new.rects ≡ to.old.rects }
    ensures cells { (x y : ℤ) → cell_in to.new x y
        ≡ laid (cell_in from.now (x -ℤ way.x) (y -ℤ way.y)) (cell_in to.old x y) }
{
    for place in 0..to.region().count() {
        let rect = to.region().rect_at(place).unwrap();
        lay_rect(from, way, to, rect);
    }
}

/// The same on the pixels of a rectangle.
fn lay_rect(from: &SpanBuf, way: Pixel, to: &mut SpanBuf, rect: Rect)
    requires across { IsShift way.x }
    requires down { IsShift way.y }
    requires some { IsNotEmpty rect }
    requires inside { (x y : ℤ) → rect_has rect x y ≡ true → region_has to.old.rects x y ≡ true }
    ensures region { to.new.rects ≡ to.old.rects }
    ensures cells { (x y : ℤ) → cell_in to.new x y ≡ (if rect_has rect x y
        then laid (cell_in from.now (x -ℤ way.x) (y -ℤ way.y)) (cell_in to.old x y)
        else cell_in to.old x y) }
{
    let width = width_of(rect);
    let height = height_of(rect);
    for row in 0..height {
        let target = row_of(rect, row);
        lay_row(from, moved_back(target, way), to, target, width);
    }
}

/// The pixel before it was moved.
fn moved_back(pixel: Pixel, way: Pixel) -> Pixel
    requires across { IsShift way.x }
    requires down { IsShift way.y }
    requires left { negsuc 32767 ≤ℤ pixel.x }
    requires right { pixel.x ≤ℤ pos 32767 }
    requires top { negsuc 32767 ≤ℤ pixel.y }
    requires bottom { pixel.y ≤ℤ pos 32767 }
    ensures across { result.x ≡ pixel.x -ℤ way.x }
    ensures down { result.y ≡ pixel.y -ℤ way.y }
{
    Pixel {
        x: pixel.x - way.x,
        y: pixel.y - way.y,
    }
}

/// Gives the pixels from `target` on to the right the cells from `source` on, where there are any.
fn lay_row(from: &SpanBuf, source: Pixel, to: &mut SpanBuf, target: Pixel, count: usize)
    requires inside { HasRun to.old.rects target.x target.y count }
    requires few { count ≤ 65536 }
    requires low { negsuc 98303 ≤ℤ target.x }
    requires high { target.x ≤ℤ pos 98304 }
    requires from_low { negsuc 98303 ≤ℤ source.x }
    requires from_high { source.x ≤ℤ pos 98304 }
    ensures region { to.new.rects ≡ to.old.rects }
    ensures cells { IsLaidRun (λ k. cell_in from.now (source.x +ℤ pos k) source.y)
        to.old to.new target.x target.y count }
{
    let mut done = 0;
    while done < count {
        let rest = count - done;
        done += lay_run(from, ahead(source, done), to, ahead(target, done), rest);
    }
}

/// The same for some of the pixels from the first on, at most for `rest`. How many, is given back.
fn lay_run(from: &SpanBuf, source: Pixel, to: &mut SpanBuf, target: Pixel, rest: usize) -> usize
    requires some { 0 < rest }
    requires inside { HasRun to.old.rects target.x target.y rest }
    ensures region { to.new.rects ≡ to.old.rects }
    ensures some { 0 < result }
    ensures within { result ≤ rest }
    ensures cells { IsLaidRun (λ k. cell_in from.now (source.x +ℤ pos k) source.y)
        to.old to.new target.x target.y result }
{
    let row = from.row_from(source.x, source.y);
    if row.is_empty() {
        return gap_from(from, source, rest);
    }
    let count = row.len().min(rest);
    let row = &row[..count];
    to.put_counted(target.x, target.y, row, from.dirty_in(row));
    count
}

/// How many pixels from one on to the right aren't in the region, at most `rest`.
pub(crate) fn gap_from(spans: &SpanBuf, pixel: Pixel, rest: usize) -> usize
    requires some { 0 < rest }
    requires outside { region_has spans.now.rects pixel.x pixel.y ≡ false }
    ensures some { 0 < result }
    ensures within { result ≤ rest }
    ensures none { (k : ℕ) → k < result → cell_in spans.now (pixel.x +ℤ pos k) pixel.y ≡ None }
{
    let (_, last) = spans.region().run_at(pixel.x, pixel.y);
    columns(pixel.x, last).min(rest)
}

/// The pixel so many columns further right.
pub(crate) fn ahead(pixel: Pixel, count: usize) -> Pixel
    requires low { negsuc 98303 ≤ℤ pixel.x }
    requires high { pixel.x ≤ℤ pos 98304 }
    requires few { count ≤ 65536 }
    ensures across { result.x ≡ pixel.x +ℤ pos count }
    ensures down { result.y ≡ pixel.y }
{
    Pixel {
        x: pixel.x + count as i32,
        y: pixel.y,
    }
}

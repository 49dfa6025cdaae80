ghost use Rattle.std.specs.Prelude.{◌≡◌, ◌<◌, ◌≤◌, ◌+ℤ◌, ◌≤ℤ◌, ◌&&◌, ℕ, ℤ, neg_ℤ, true, pos, Some};
ghost use Rattle.std.specs.Prelude.{length, slice_get, IfOk, OnOk};
ghost use Rattle.std.specs.Option.{option_map};
ghost use Rattle.be_geom.specs.Rects.{rect_has};
ghost use Rattle.be_region.specs.Regions.{IsMoved, IsNotEmpty, region_has};
ghost use Rattle.be_span.specs.Spans.{cell_in, is_dirty, pixels_of};
ghost use Rattle.be_pane.specs.StandsFor.{IsWhole};
ghost use Rattle.be_update.specs.Rows.{HasMore, IsAllOf, LieIn, waits_in};
ghost use Rattle.be_update.specs.Surveys.{IsWaiting};

use crate::union::union_of;
use be_geom::{NoMemory, OutOfRange, Point, Rect};
use be_pane::Pane;
use be_region::Region;
use be_span::{Cell, SpanBuf};
use be_views::ViewTree;
use std::alloc::Global;

/// The pixels of a pane that wait, in window coordinates.
pub(crate) fn waiting(alloc: Global, pane: &Pane) -> Result<Region, NoMemory>
    requires { IsWhole pane.now }
    ensures { IfOk result (λ region. IsWaiting region pane.now) }
{
    let rects = dirty_rects(alloc, &pane.spans)?;
    let region = union_of(alloc, &rects)?;
    Ok(in_window(region, pane.place, root_frame(&pane.tree)))
}

/// The frame of a window's root view, in window coordinates.
fn root_frame(tree: &ViewTree) -> Rect
    ensures { option_map (λ view. view.frame) (slice_get tree.now 0) ≡ Some result }
{
    prove!(tree.len() > 0);
    tree.frame_of(0).unwrap()
}

/// Pixels of the window's frame, in window coordinates. The frame is given in these.
fn in_window(region: Region, place: Point, frame: Rect) -> Region
    requires { LieIn region place frame }
    ensures { IsMoved result region (neg_ℤ place.x) (neg_ℤ place.y) }
{
    let mut region = region;
    match region.offset(back(place.x), back(place.y)) {
        Ok(()) => region,
        Err(OutOfRange) => unreachable!(),
    }
}

/// The way from a coordinate to 0.
fn back(coordinate: i16) -> i32
    ensures { result ≡ neg_ℤ coordinate }
{
    -i32::from(coordinate)
}

/// Rectangles that have the pixels that wait, in screen coordinates.
fn dirty_rects(alloc: Global, spans: &SpanBuf) -> Result<Vec<Rect>, NoMemory>
    ensures { IfOk result (λ rects. (x y : ℤ) → region_has rects.items x y
        ≡ is_dirty (cell_in spans.now x y)) }
{
    let mut rects = Vec::new(alloc);
    for place in 0..spans.region().count() {
        let rect = spans.region().rect_at(place).unwrap();
        add_rect(&mut rects, spans, rect)?;
    }
    Ok(rects)
}

/// Adds the pixels of a rectangle of the region that wait.
fn add_rect(rects: &mut Vec<Rect>, spans: &SpanBuf, rect: Rect) -> Result<(), NoMemory>
    requires some { IsNotEmpty rect }
    requires inside { (x y : ℤ) → rect_has rect x y ≡ true → region_has spans.now.rects x y ≡ true }
    requires whole { length spans.now.cells ≡ pixels_of spans.now.rects }
    ensures { OnOk result (HasMore (λ x y. rect_has rect x y && is_dirty (cell_in spans.now x y))
        rects.old.items rects.new.items) }
{
    for row in 0..count_of(rect.top, rect.bottom) {
        let y = row_at(rect, row);
        add_row(rects, row_of(spans, rect.left, rect.right, y), rect.left, y)?;
    }
    Ok(())
}

/// How many rows or columns there are from the first to the last.
fn count_of(first: i16, last: i16) -> usize
    requires { first ≤ℤ last }
    ensures { first +ℤ pos result ≡ last +ℤ pos 1 }
{
    (i32::from(last) - i32::from(first) + 1) as usize
}

/// A row of a rectangle, counted from its top.
fn row_at(rect: Rect, row: usize) -> i16
    requires { (rect.top +ℤ pos row) ≤ℤ rect.bottom }
    ensures { result ≡ rect.top +ℤ pos row }
{
    (i32::from(rect.top) + row as i32) as i16
}

/// The cells of a row of the region between two columns.
fn row_of(spans: &SpanBuf, left: i16, right: i16, y: i16) -> &[Cell]
    requires across { left ≤ℤ right }
    requires inside { (x : ℤ) → left ≤ℤ x → x ≤ℤ right → region_has spans.now.rects x y ≡ true }
    requires whole { length spans.now.cells ≡ pixels_of spans.now.rects }
    ensures width { left +ℤ pos (length result.now) ≡ right +ℤ pos 1 }
    ensures cells { (k : ℕ) → k < length result.now
        → cell_in spans.now (left +ℤ pos k) y ≡ slice_get result.now k }
{
    let width = count_of(left, right);
    let row = spans.row_from(i32::from(left), i32::from(y));
    &row[..width]
}

/// Adds the pixels of a row that wait. Its first cell is at the column `left`.
fn add_row(rects: &mut Vec<Rect>, cells: &[Cell], left: i16, y: i16) -> Result<(), NoMemory>
    requires { (left +ℤ pos (length cells.now)) ≤ℤ pos 32768 }
    ensures { OnOk result (HasMore (waits_in cells.now left y) rects.old.items rects.new.items) }
{
    let mut at = 0;
    while at < cells.len() {
        let start = run_end(cells, at, false);
        let end = run_end(cells, start, true);
        if start < end {
            rects.push(row_rect(left, y, start, end))?;
        }
        at = end;
    }
    Ok(())
}

/// The rectangle of a row from one column to before another, which are counted from `left`.
fn row_rect(left: i16, y: i16, start: usize, end: usize) -> Rect
    requires some { start < end }
    requires fits { (left +ℤ pos end) ≤ℤ pos 32768 }
    ensures left { result.left ≡ left +ℤ pos start }
    ensures right { result.right +ℤ pos 1 ≡ left +ℤ pos end }
    ensures top { result.top ≡ y }
    ensures bottom { result.bottom ≡ y }
{
    Rect {
        left: (i32::from(left) + start as i32) as i16,
        top: y,
        right: (i32::from(left) + (end as i32 - 1)) as i16,
        bottom: y,
    }
}

/// Where the cells with this mark end, from a cell on.
fn run_end(cells: &[Cell], from: usize, dirty: bool) -> usize
    requires { from ≤ length cells.now }
    ensures forward { from ≤ result }
    ensures within { result ≤ length cells.now }
    ensures same { IsAllOf dirty cells.now from result }
    ensures other { result < length cells.now
        → ¬ (option_map (λ c. c.dirty) (slice_get cells.now result) ≡ Some dirty) }
{
    let mut at = from;
    while at < cells.len() && cells[at].dirty == dirty {
        at += 1;
    }
    at
}

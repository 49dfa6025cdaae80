ghost use Rattle.std.specs.Prelude.{◌≡◌, ℤ, ◌-ℤ◌, true, ◌&&◌, not, length, IfOk, IfSome};
ghost use Rattle.std.specs.Prelude.{if◌then◌else◌};
ghost use Rattle.std.specs.Option.{option_map};
ghost use Rattle.be_region.specs.Regions.{region_has};
ghost use Rattle.be_span.specs.Cells.{unmarked};
ghost use Rattle.be_span.specs.Seen.{IsRound};
ghost use Rattle.be_span.specs.Spans.{cell_in, pixels_of};

use crate::Cell;
use crate::alter::Alter;
use crate::buffer::{PIXEL, SpanBuf};
use crate::grid::Grid;
use crate::places::area_of;
use crate::rows::{dirty_of, unmark_all};
use be_color::Rgb;
use be_geom::{NoMemory, Rect};
use be_region::Region;
use std::alloc::Global;
use std::marker::Model;

/// A region that a buffer takes in place of its own, made ready so that no memory is taken then.
#[derive(Debug, Drop)]
pub struct Next {
    region: Region,
    frame: Rect,
    /// Room for the cells of all pixels of the frame, where the buffer has none.
    room: Vec<Cell>,
}

impl Model for Next {
    ghost use Rattle.std.specs.Prelude.{List};
    ghost use Rattle.be_geom.specs.declared.rect.Rect.{Rect};
    ghost use Rattle.be_span.specs.Seen.{IsReady};

    ghost Value = { List Rect };

    ghost view = { λ n. n.region };

    ghost invariant = { λ n. IsReady n.region n.frame n.room };
}

impl Next {
    /// Makes a region ready. It takes room for the pixels of its frame, and looks at none of it.
    pub fn new(alloc: Global, region: Region) -> Result<Next, NoMemory>
        ensures { IfOk result (λ next. next ≡ region) }
    {
        let frame = region.frame().unwrap_or(PIXEL);
        let room = Vec::with_capacity(alloc, area_of(frame))?;
        Ok(Next {
            region,
            frame,
            room,
        })
    }
}

impl SpanBuf {
    /// Moves each pixel, with its cell, `dx` to the right and `dy` down, and takes another region
    /// then. `given` are the pixels that are given up. Which cells those get that weren't there
    /// isn't said. No memory is taken.
    ///
    /// Where there is room for the region, it costs nothing but the rows that are given up, and
    /// not even those where no pixel is dirty; else all of the region's pixels.
    pub fn retake(&mut self, dx: i32, dy: i32, next: Next, given: &Region)
        requires { (x y : ℤ) → region_has given.now x y
            ≡ (region_has self.old.rects (x -ℤ dx) (y -ℤ dy) && not (region_has next x y)) }
        ensures region { self.new.rects ≡ next }
        ensures cells { (x y : ℤ) → region_has next x y ≡ true
            → region_has self.old.rects (x -ℤ dx) (y -ℤ dy) ≡ true
            → cell_in self.new x y ≡ cell_in self.old (x -ℤ dx) (y -ℤ dy) }
    {
        let Next {
            region,
            frame,
            room,
        } = next;
        if let Some(moved) = moved_round(self.grid.frame(), dx, dy, frame) {
            self.grid.offset(dx, dy, moved);
            unmark(&mut self.grid, given);
            self.region = region;
        } else {
            let grid = Grid::filled_in(room, frame, Rgb::BLACK);
            let mut whole = SpanBuf { region, grid };
            whole.lay(self, dx, dy);
            *self = whole;
        }
    }
}

/// The rectangle so much further right and down, where it is in range and has the other in it.
fn moved_round(rect: Rect, dx: i32, dy: i32, inner: Rect) -> Option<Rect>
    ensures { IfSome result (IsRound rect dx dy inner) }
{
    let Ok(moved) = rect.offset(dx, dy) else {
        return None;
    };
    if inner.left < moved.left
        || moved.right < inner.right
        || inner.top < moved.top
        || moved.bottom < inner.bottom
    {
        return None;
    }
    Some(moved)
}

/// Takes the marks of a region's pixels away. Where no pixel is dirty, no cell is looked at.
fn unmark(grid: &mut Grid, region: &Region)
    requires inside { (x y : ℤ) → region_has region.now x y ≡ true
        → region_has grid.old.rects x y ≡ true }
    requires whole { length grid.old.cells ≡ pixels_of grid.old.rects }
    ensures frame { grid.new.rects ≡ grid.old.rects }
    ensures whole { length grid.new.cells ≡ pixels_of grid.new.rects }
    ensures cells { (x y : ℤ) → cell_in grid.new x y ≡ (if region_has region.now x y
        then option_map unmarked (cell_in grid.old x y) else cell_in grid.old x y) }
{
    if grid.dirty() == 0 {
        return;
    }
    for place in 0..region.count() {
        let rect = region.rect_at(place).unwrap();
        grid.alter_rect(rect, &Clean);
    }
}

/// Each pixel waits no more.
struct Clean;

impl Alter for Clean {
    ghost rule = { λ s x y. unmarked };

    ghost at = { λ s x y. true };

    ghost knows = { λ s x y. true };

    fn alter(&self, cells: &mut [Cell], _x: i32, _y: i32, dirty: usize) -> usize {
        let lost = dirty_of(cells, dirty);
        unmark_all(cells);
        dirty - lost
    }
}

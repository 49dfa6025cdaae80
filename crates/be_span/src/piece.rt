ghost use Rattle.std.specs.Prelude.{◌≡◌, ◌<◌, ◌≤◌, ℕ, ℤ, pos, ◌+ℤ◌, Some, true, false};
ghost use Rattle.std.specs.Prelude.{[], ◌∷◌, length, slice_get, IsTrue, ◌↔◌};
ghost use Rattle.be_geom.specs.Rects.{rect_has};
ghost use Rattle.be_region.specs.Regions.{IsNotEmpty, region_has};
ghost use Rattle.be_span.specs.Painting.{IsPainted};
ghost use Rattle.be_span.specs.Runs.{HasRun};
ghost use Rattle.be_span.specs.Spans.{area_of, cell_in, is_dirty};

use crate::Cell;
use crate::block::row_in;
use crate::places::area_of;
use crate::rows::dirty_among;
use crate::write::{Write, write_rows};
use be_color::Rgb;
use be_geom::Rect;
use std::marker::Model;

/// How many pixels a piece has at most.
const MOST: usize = 1024;

/// The pixels of a rectangle with cells of their own, at most 1,024. It takes no memory.
#[derive(Drop)]
pub struct Piece {
    area: Rect,
    cells: [Cell; MOST],
}

impl Model for Piece {
    ghost use Rattle.std.specs.Prelude.{◌≤◌, ◌∷◌, []};
    ghost use Rattle.be_region.specs.Regions.{IsNotEmpty};
    ghost use Rattle.be_span.specs.Spans.{Spans, area_of};

    ghost Value = { Spans };

    ghost view = { λ p. record { rects = p.area ∷ []; cells = p.cells } };

    ghost invariant = { λ p. IsNotEmpty p.area × (area_of p.area ≤ 1024) };
}

impl Piece {
    /// One black pixel.
    pub fn new() -> Piece {
        let area = Rect {
            left: 0,
            top: 0,
            right: 0,
            bottom: 0,
        };
        let black = Cell {
            rgb: Rgb::BLACK,
            dirty: false,
        };
        Piece {
            area,
            cells: [black; MOST],
        }
    }

    /// Whether one has room for a rectangle.
    pub fn has_room(area: Rect) -> bool
        requires { IsNotEmpty area }
        ensures { IsTrue result ↔ (area_of area ≤ 1024) }
    {
        area_of(area) <= MOST
    }

    /// Takes other pixels, those of a rectangle, and writes for all of them.
    #[inline(always)]
    pub fn begin<W: Write>(&mut self, area: Rect, write: &W)
        requires some { IsNotEmpty area }
        requires room { area_of area ≤ 1024 }
        requires known { (x y : ℤ) → rect_has area x y ≡ true → W.knows write.now x y ≡ true }
        ensures region { self.new.rects ≡ area ∷ [] }
        ensures cells { (x y : ℤ) → rect_has area x y ≡ true
            → cell_in self.new x y ≡ Some (W.cell write.now x y) }
    {
        self.area = area;
        self.write(area, write);
    }

    /// Writes for the pixels of a rectangle, all of them among its own, row by row.
    #[inline(always)]
    pub fn write<W: Write>(&mut self, part: Rect, write: &W)
        requires some { IsNotEmpty part }
        requires own { (x y : ℤ) → rect_has part x y ≡ true
            → region_has self.old.rects x y ≡ true }
        requires known { (x y : ℤ) → rect_has part x y ≡ true → W.knows write.now x y ≡ true }
        ensures { IsPainted (λ x y c. W.cell write.now x y) (rect_has part) self.old self.new }
    {
        write_rows(&mut self.cells, self.area, part, write);
    }

    /// The cells of the `count` pixels from (x, y) on to the right.
    #[inline(always)]
    pub fn row(&self, x: i32, y: i32, count: usize) -> &[Cell]
        requires some { 0 < count }
        requires run { HasRun self.now.rects x y count }
        ensures len { length result.now ≡ count }
        ensures cells { (k : ℕ) → k < count
            → cell_in self.now (x +ℤ pos k) y ≡ slice_get result.now k }
    {
        row_in(&self.cells, self.area, x, y, count)
    }

    /// Whether no cell is dirty.
    pub fn is_clean(&self) -> bool
        ensures { IsTrue result → (x y : ℤ) → is_dirty (cell_in self.now x y) ≡ false }
    {
        dirty_among(&self.cells[..area_of(self.area)]) == 0
    }
}

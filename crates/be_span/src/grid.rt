ghost use Rattle.std.specs.Prelude.{◌≡◌, ◌<◌, ◌≤◌, ℕ, ℤ, pos, ◌+ℤ◌, ◌-ℤ◌, true, Some, All, IfOk, ◌&&◌};
ghost use Rattle.std.specs.Prelude.{[], ◌∷◌, length, slice_get, count_by, vec_capacity};
ghost use Rattle.std.specs.Option.{option_map};
ghost use Rattle.be_geom.specs.Rects.{moved_rect, rect_has};
ghost use Rattle.be_geom.specs.declared.rect.Rect.{Rect};
ghost use Rattle.be_region.specs.Regions.{IsNotEmpty, region_has};
ghost use Rattle.be_span.specs.Cells.{unmarked};
ghost use Rattle.be_span.specs.Painting.{changed, IsPainted};
ghost use Rattle.be_span.specs.Runs.{HasRun, IsBeside};
ghost use Rattle.be_span.specs.Spans.{area_of, cell_in, clean_cell, pixels_of};

use crate::Cell;
use crate::alter::{Alter, alter_rows};
use crate::block::{alter_in, row_in};
use crate::places::{area_of, start_of};
use crate::rows::{overwrite, unmark_all};
use be_color::Rgb;
use be_geom::{NoMemory, Rect};
use std::alloc::Global;
use std::marker::Model;

/// The pixels of a rectangle with their cells, row by row.
#[derive(Debug, Drop)]
pub(crate) struct Grid {
    frame: Rect,
    cells: Vec<Cell>,
    /// How many of them are dirty.
    dirty: usize,
}

impl Model for Grid {
    ghost use Rattle.std.specs.Prelude.{[], ◌∷◌};
    ghost use Rattle.be_span.specs.Spans.{Spans};
    ghost use Rattle.be_span.specs.Seen.{IsGrid};

    ghost Value = { Spans };

    ghost view = { λ g. record { rects = g.frame ∷ []; cells = g.cells.items } };

    ghost invariant = { λ g. IsGrid g.frame g.cells.items g.dirty };
}

impl Grid {
    /// The pixels of a rectangle, all of this colour and clean.
    pub(crate) fn filled(alloc: Global, frame: Rect, rgb: Rgb) -> Result<Grid, NoMemory>
        requires { IsNotEmpty frame }
        ensures frame { IfOk result (λ grid. grid.rects ≡ frame ∷ []) }
        ensures whole { IfOk result (λ grid. length grid.cells ≡ pixels_of grid.rects) }
        ensures cells { IfOk result (λ grid. (x y : ℤ) → region_has grid.rects x y ≡ true
            → cell_in grid x y ≡ Some (clean_cell rgb)) }
    {
        let cells = clean_cells(alloc, area_of(frame), rgb)?;
        Ok(Grid {
            frame,
            cells,
            dirty: 0,
        })
    }

    /// The same in room for as many cells at least, which is taken.
    pub(crate) fn filled_in(room: Vec<Cell>, frame: Rect, rgb: Rgb) -> Grid
        requires some { IsNotEmpty frame }
        requires none { length room.items ≡ 0 }
        requires room { area_of frame ≤ vec_capacity room }
        ensures frame { result.rects ≡ frame ∷ [] }
        ensures whole { length result.cells ≡ pixels_of result.rects }
        ensures cells { (x y : ℤ) → region_has result.rects x y ≡ true
            → cell_in result x y ≡ Some (clean_cell rgb) }
    {
        let cell = Cell { rgb, dirty: false };
        let mut cells = room;
        cells.resize(area_of(frame), cell).unwrap();
        Grid {
            frame,
            cells,
            dirty: 0,
        }
    }

    /// Where its memory comes from.
    pub(crate) fn allocator(&self) -> Global {
        *self.cells.allocator()
    }

    /// The rectangle.
    pub(crate) fn frame(&self) -> Rect
        ensures frame { self.now.rects ≡ result ∷ [] }
        ensures some { IsNotEmpty result }
    {
        self.frame
    }

    /// Moves each pixel, with its cell, `dx` to the right and `dy` down, to another rectangle.
    pub(crate) fn offset(&mut self, dx: i32, dy: i32, frame: Rect)
        requires { (old : Rect) → self.old.rects ≡ old ∷ [] → frame ≡ moved_rect old dx dy }
        ensures frame { self.new.rects ≡ frame ∷ [] }
        ensures whole { length self.new.cells ≡ pixels_of self.new.rects }
        ensures cells { (x y : ℤ) → cell_in self.new x y
            ≡ cell_in self.old (x -ℤ dx) (y -ℤ dy) }
    {
        self.frame = frame;
    }

    /// How many pixels are dirty.
    pub(crate) fn dirty(&self) -> usize
        ensures { result ≡ count_by (λ c. c.dirty) self.now.cells }
    {
        self.dirty
    }

    /// Takes the marks of all pixels away.
    pub(crate) fn clear_marks(&mut self)
        ensures frame { self.new.rects ≡ self.old.rects }
        ensures whole { length self.new.cells ≡ pixels_of self.new.rects }
        ensures cells { (x y : ℤ) → cell_in self.new x y
            ≡ option_map unmarked (cell_in self.old x y) }
    {
        unmark_all(&mut self.cells);
        self.dirty = 0;
    }

    /// The cells of the `count` pixels from (x, y) on to the right.
    #[inline(always)]
    pub(crate) fn row(&self, x: i32, y: i32, count: usize) -> &[Cell]
        requires some { 0 < count }
        requires run { HasRun self.now.rects x y count }
        ensures len { length result.now ≡ count }
        ensures cells { (k : ℕ) → k < count
            → cell_in self.now (x +ℤ pos k) y ≡ slice_get result.now k }
    {
        row_in(&self.cells, self.frame, x, y, count)
    }

    /// Gives the pixels from (x, y) on to the right these cells, of which `more` are dirty.
    #[inline(always)]
    pub(crate) fn put(&mut self, x: i32, y: i32, cells: &[Cell], more: usize)
        requires some { 0 < length cells.now }
        requires run { HasRun self.old.rects x y (length cells.now) }
        requires more { more ≡ count_by (λ c. c.dirty) cells.now }
        ensures frame { self.new.rects ≡ self.old.rects }
        ensures whole { length self.new.cells ≡ pixels_of self.new.rects }
        ensures cells { (k : ℕ) → k < length cells.now
            → cell_in self.new (x +ℤ pos k) y ≡ slice_get cells.now k }
        ensures others { (z w : ℤ) → IsBeside x y (length cells.now) z w
            → cell_in self.new z w ≡ cell_in self.old z w }
    {
        let start = start_of(self.frame, x, y, cells.len());
        self.dirty = overwrite(&mut self.cells, start, cells, more, self.dirty);
    }

    /// Alters the `count` pixels from (x, y) on to the right.
    #[inline(always)]
    pub(crate) fn alter<A: Alter>(&mut self, x: i32, y: i32, count: usize, alter: &A)
        requires some { 0 < count }
        requires run { HasRun self.old.rects x y count }
        requires known { (k : ℕ) → k < count → A.knows alter.now (x +ℤ pos k) y ≡ true }
        ensures frame { self.new.rects ≡ self.old.rects }
        ensures whole { length self.new.cells ≡ pixels_of self.new.rects }
        ensures altered { (k : ℕ) → k < count → cell_in self.new (x +ℤ pos k) y
            ≡ option_map (changed (A.rule alter.now) (A.at alter.now) (x +ℤ pos k) y)
            (cell_in self.old (x +ℤ pos k) y) }
        ensures others { (z w : ℤ) → IsBeside x y count z w
            → cell_in self.new z w ≡ cell_in self.old z w }
    {
        let cells = &mut self.cells;
        self.dirty = alter_in(cells, self.frame, x, y, count, alter, self.dirty);
    }

    /// Alters the pixels of a rectangle, row by row.
    #[inline(always)]
    pub(crate) fn alter_rect<A: Alter>(&mut self, rect: Rect, alter: &A)
        requires some { IsNotEmpty rect }
        requires inside { (x y : ℤ) → rect_has rect x y ≡ true
            → region_has self.old.rects x y ≡ true }
        requires known { (x y : ℤ) → rect_has rect x y ≡ true → A.knows alter.now x y ≡ true }
        ensures painted { IsPainted (A.rule alter.now)
            (λ x y. rect_has rect x y && A.at alter.now x y) self.old self.new }
        ensures whole { length self.new.cells ≡ pixels_of self.new.rects }
    {
        let cells = &mut self.cells;
        self.dirty = alter_rows(cells, self.frame, rect, alter, self.dirty);
    }
}

fn clean_cells(alloc: Global, count: usize, rgb: Rgb) -> Result<Vec<Cell>, NoMemory>
    ensures same { IfOk result (λ cells. All (λ c. c ≡ clean_cell rgb) cells.items) }
    ensures len { IfOk result (λ cells. length cells.items ≡ count) }
{
    let cell = Cell { rgb, dirty: false };
    Ok(vec![in alloc; cell; count]?)
}

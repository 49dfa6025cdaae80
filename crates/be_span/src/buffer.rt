ghost use Rattle.std.specs.Prelude.{◌≡◌, ◌<◌, ◌↔◌, ℕ, ℤ, pos, ◌+ℤ◌, ◌≤ℤ◌, true, false, None};
ghost use Rattle.std.specs.Prelude.{Some, IfOk, IsSome, IsTrue, All, length};
ghost use Rattle.std.specs.Prelude.{slice_get, count_by, ◌&&◌, if◌then◌else◌};
ghost use Rattle.std.specs.Option.{option_map};
ghost use Rattle.be_geom.specs.Rects.{rect_has};
ghost use Rattle.be_region.specs.Regions.{region_has};
ghost use Rattle.be_region.specs.Bands.{AreBands};
ghost use Rattle.be_span.specs.Cells.{unmarked, exposed_cell};
ghost use Rattle.be_span.specs.Painting.{changed, IsPainted};
ghost use Rattle.be_span.specs.Runs.{HasRun, IsBeside, IsInside, IsSpanOf};
ghost use Rattle.be_span.specs.Seen.{IsSeen};
ghost use Rattle.be_span.specs.Spans.{cell_in, is_dirty, black_cell, clean_cell, pixels_of};

use crate::Cell;
use crate::alter::Alter;
use crate::expose::Expose;
use crate::grid::Grid;
use crate::paint::{Kept, Paint};
use crate::places::run_from;
use crate::rows::{dirty_among, dirty_of};
use crate::span::Span;
use be_color::{Color, Rgb};
use be_geom::{NoMemory, Rect};
use be_region::Region;
use std::alloc::Global;
use std::marker::Model;

/// A pixel. Where a region has none, a cell is kept for this one.
pub(crate) const PIXEL: Rect = Rect {
    left: 0,
    top: 0,
    right: 0,
    bottom: 0,
};

/// The pixels of a region with their cells.
#[derive(Debug, Drop)]
pub struct SpanBuf {
    pub(crate) region: Region,
    /// Cells for its pixels, and clean ones for others.
    pub(crate) grid: Grid,
}

impl Model for SpanBuf {
    ghost use Rattle.be_span.specs.Spans.{Spans};
    ghost use Rattle.be_span.specs.Seen.{seen, IsSeen};

    ghost Value = { Spans };

    ghost view = { λ b. seen b.region b.grid };

    ghost invariant = { λ b. IsSeen b.region b.grid };
}

impl SpanBuf {
    /// The pixels of the region, all black and clean.
    pub fn prepare(alloc: Global, region: Region) -> Result<SpanBuf, NoMemory>
        ensures region { IfOk result (λ spans. spans.rects ≡ region) }
        ensures black { IfOk result (λ spans. (x y : ℤ) → cell_in spans x y
            ≡ (if region_has region x y then Some black_cell else None)) }
        ensures clean { IfOk result (λ spans. All (λ c. c ≡ black_cell) spans.cells) }
    {
        SpanBuf::filled(alloc, region, Rgb::BLACK)
    }

    /// The pixels of the region, all of this colour and clean.
    pub fn filled(alloc: Global, region: Region, rgb: Rgb) -> Result<SpanBuf, NoMemory>
        ensures region { IfOk result (λ spans. spans.rects ≡ region) }
        ensures filled { IfOk result (λ spans. (x y : ℤ) → cell_in spans x y
            ≡ (if region_has region x y then Some (clean_cell rgb) else None)) }
        ensures clean { IfOk result (λ spans. All (λ c. c ≡ clean_cell rgb) spans.cells) }
    {
        let frame = region.frame().unwrap_or(PIXEL);
        let grid = Grid::filled(alloc, frame, rgb)?;
        Ok(SpanBuf { region, grid })
    }

    /// The region whose pixels these are.
    pub fn region(&self) -> &Region
        ensures region { result.now ≡ self.now.rects }
        ensures whole { length self.now.cells ≡ pixels_of self.now.rects }
    {
        &self.region
    }

    /// Each pixel of the region has one cell. The call does nothing, and is there for its clauses.
    pub fn whole(&self)
        ensures bands { AreBands self.now.rects }
        ensures cells { length self.now.cells ≡ pixels_of self.now.rects }
    {
        let _region = &self.region;
    }

    /// Where its memory comes from.
    pub(crate) fn allocator(&self) -> Global {
        self.grid.allocator()
    }

    /// How many pixels are dirty. It is kept, so that no cell is looked at.
    pub fn dirty_count(&self) -> usize
        ensures { result ≡ count_by (λ c. c.dirty) self.now.cells }
    {
        self.grid.dirty()
    }

    /// Whether no pixel is dirty.
    pub fn is_clean(&self) -> bool
        ensures count { IsTrue result ↔ (count_by (λ c. c.dirty) self.now.cells ≡ 0) }
        ensures pixels { IsTrue result
            ↔ ((x y : ℤ) → is_dirty (cell_in self.now x y) ≡ false) }
    {
        self.grid.dirty() == 0
    }

    /// Takes the marks of all pixels away. Where none is dirty, no cell is looked at.
    pub fn clear_marks(&mut self)
        ensures region { self.new.rects ≡ self.old.rects }
        ensures cells { (x y : ℤ) → cell_in self.new x y
            ≡ option_map unmarked (cell_in self.old x y) }
        ensures clean { count_by (λ c. c.dirty) self.new.cells ≡ 0 }
    {
        if self.grid.dirty() == 0 {
            return;
        }
        self.grid.clear_marks();
    }

    /// The cell of a pixel. None outside the region.
    pub fn get(&self, x: i32, y: i32) -> Option<Cell>
        ensures cell { result ≡ cell_in self.now x y }
        ensures inside { IsSome result ↔ (region_has self.now.rects x y ≡ true) }
    {
        self.row_from(x, y).first().copied()
    }

    /// The cells from a pixel on to the end of its span. None outside the region.
    pub fn row_from(&self, x: i32, y: i32) -> &[Cell]
        ensures cells { (k : ℕ) → k < length result.now
            → cell_in self.now (x +ℤ pos k) y ≡ slice_get result.now k }
        ensures ends { cell_in self.now (x +ℤ pos (length result.now)) y ≡ None }
        ensures inside { (0 < length result.now) ↔ (region_has self.now.rects x y ≡ true) }
        ensures run { HasRun self.now.rects x y (length result.now) }
    {
        match run_from(&self.region, x, y) {
            Some(count) => self.grid.row(x, y, count),
            None => &[],
        }
    }

    /// Gives a pixel another cell. False, and no change, outside the region.
    pub fn set(&mut self, x: i32, y: i32, cell: Cell) -> bool
        ensures inside { result ≡ region_has self.old.rects x y }
        ensures region { self.new.rects ≡ self.old.rects }
        ensures cell { result ≡ true → cell_in self.new x y ≡ Some cell }
        ensures others { (z w : ℤ) → IsBeside x y 1 z w
            → cell_in self.new z w ≡ cell_in self.old z w }
        ensures refused { result ≡ false → self.new ≡ self.old }
    {
        if !self.region.contains(x, y) {
            return false;
        }
        self.put_row(x, y, &[cell]);
        true
    }

    /// Gives the pixels from (x, y) on to the right these cells.
    pub fn put_row(&mut self, x: i32, y: i32, cells: &[Cell])
        requires { HasRun self.old.rects x y (length cells.now) }
        ensures whole { length self.old.cells ≡ pixels_of self.old.rects }
        ensures region { self.new.rects ≡ self.old.rects }
        ensures cells { (k : ℕ) → k < length cells.now
            → cell_in self.new (x +ℤ pos k) y ≡ slice_get cells.now k }
        ensures others { (z w : ℤ) → IsBeside x y (length cells.now) z w
            → cell_in self.new z w ≡ cell_in self.old z w }
    {
        self.put_counted(x, y, cells, dirty_among(cells));
    }

    /// As `put`, where it is known how many of these cells are dirty.
    pub(crate) fn put_counted(&mut self, x: i32, y: i32, cells: &[Cell], more: usize)
        requires run { HasRun self.old.rects x y (length cells.now) }
        requires more { more ≡ count_by (λ c. c.dirty) cells.now }
        ensures whole { length self.old.cells ≡ pixels_of self.old.rects }
        ensures region { self.new.rects ≡ self.old.rects }
        ensures cells { (k : ℕ) → k < length cells.now
            → cell_in self.new (x +ℤ pos k) y ≡ slice_get cells.now k }
        ensures others { (z w : ℤ) → IsBeside x y (length cells.now) z w
            → cell_in self.new z w ≡ cell_in self.old z w }
    {
        if !cells.is_empty() {
            self.grid.put(x, y, cells, more);
        }
    }

    /// How many of some of its cells are dirty. Where none of all is, no cell is looked at.
    pub(crate) fn dirty_in(&self, some: &[Cell]) -> usize
        requires { count_by (λ c. c.dirty) self.now.cells ≡ 0
            → count_by (λ c. c.dirty) some.now ≡ 0 }
        ensures { result ≡ count_by (λ c. c.dirty) some.now }
    {
        dirty_of(some, self.grid.dirty())
    }

    /// The rectangle at a place of the region.
    #[inline(always)]
    pub fn span(&self, place: usize) -> Span
        requires { place < length self.now.rects }
        ensures span { IsSpanOf self.now.rects result }
        ensures rect { slice_get self.now.rects place ≡ Some result.rect }
    {
        Span {
            rect: self.region.rect_at(place).unwrap(),
        }
    }

    /// Paints the pixels of a rectangle, all of them in this span. It takes no search.
    #[inline(always)]
    pub fn paint<P: Paint>(&mut self, span: Span, rect: Rect, paint: &P)
        requires span { IsSpanOf self.old.rects span }
        requires inside { IsInside rect span.rect }
        ensures { IsPainted (P.rule paint.now) (λ x y. rect_has rect x y && P.at paint.now x y)
            self.old self.new }
    {
        self.alter(span, rect, &Kept { paint });
    }

    /// Alters the pixels of a rectangle, all of them in this span. It takes no search.
    #[inline(always)]
    pub fn alter<A: Alter>(&mut self, span: Span, rect: Rect, alter: &A)
        requires span { IsSpanOf self.old.rects span }
        requires inside { IsInside rect span.rect }
        requires known { (x y : ℤ) → rect_has rect x y ≡ true → A.knows alter.now x y ≡ true }
        ensures { IsPainted (A.rule alter.now) (λ x y. rect_has rect x y && A.at alter.now x y)
            self.old self.new }
    {
        self.grid.alter_rect(rect, alter);
    }

    /// The cells of the `count` pixels from (x, y) on to the right, all of them in this span. It
    /// takes no search.
    #[inline(always)]
    pub fn cells_in(&self, span: Span, x: i32, y: i32, count: usize) -> &[Cell]
        requires some { 0 < count }
        requires span { IsSpanOf self.now.rects span }
        requires left { span.rect.left ≤ℤ x }
        requires right { (x +ℤ pos count) ≤ℤ (span.rect.right +ℤ pos 1) }
        requires top { span.rect.top ≤ℤ y }
        requires bottom { y ≤ℤ span.rect.bottom }
        ensures len { length result.now ≡ count }
        ensures cells { (k : ℕ) → k < count
            → cell_in self.now (x +ℤ pos k) y ≡ slice_get result.now k }
    {
        self.grid.row(x, y, count)
    }

    /// Alters the `count` pixels from (x, y) on to the right.
    #[inline(always)]
    pub(crate) fn alter_run<A: Alter>(&mut self, x: i32, y: i32, count: usize, alter: &A)
        requires some { 0 < count }
        requires run { HasRun self.old.rects x y count }
        requires known { (k : ℕ) → k < count → A.knows alter.now (x +ℤ pos k) y ≡ true }
        ensures region { self.new.rects ≡ self.old.rects }
        ensures altered { (k : ℕ) → k < count → cell_in self.new (x +ℤ pos k) y
            ≡ option_map (changed (A.rule alter.now) (A.at alter.now) (x +ℤ pos k) y)
            (cell_in self.old (x +ℤ pos k) y) }
        ensures others { (z w : ℤ) → IsBeside x y count z w
            → cell_in self.new z w ≡ cell_in self.old z w }
    {
        self.grid.alter(x, y, count, alter);
    }

    /// Exposes the `count` pixels from (x, y) on to the right: each gets the colour, or keeps its
    /// own where that is transparent, and waits to be drawn.
    pub fn expose_row(&mut self, x: i32, y: i32, count: usize, color: Color)
        requires { HasRun self.old.rects x y count }
        ensures region { self.new.rects ≡ self.old.rects }
        ensures exposed { (k : ℕ) → k < count → cell_in self.new (x +ℤ pos k) y
            ≡ option_map (exposed_cell color) (cell_in self.old (x +ℤ pos k) y) }
        ensures others { (z w : ℤ) → IsBeside x y count z w
            → cell_in self.new z w ≡ cell_in self.old z w }
    {
        if 0 < count {
            self.alter_run(x, y, count, &Expose { color });
        }
    }
}

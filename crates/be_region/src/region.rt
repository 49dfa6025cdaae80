ghost use Rattle.std.specs.Prelude.{◌≡◌, ◌≤◌, ◌↔◌, false, length, slice_get, IsErr, IsNone, IfOk};
ghost use Rattle.std.specs.Prelude.{IfNone, IfSome, OnOk, OnErr};
ghost use Rattle.be_region.specs.Regions.{region_has, HasNone, HasPixelsOf, SamePixels, IsUnion};
ghost use Rattle.be_region.specs.Regions.{IsDifference, IsIntersection, IsMoved, SomePixelLeaves};
ghost use Rattle.be_region.specs.Bands.{AreBands};
ghost use Rattle.be_region.specs.Runs.{IsRun};
ghost use Rattle.be_region.specs.Frames.{IsFrame};
ghost use Rattle.be_region.specs.Places.{IsSpanAt};

use crate::edges::{are_movable, frame_of, move_all};
use crate::place::{has_at, run_at, span_at};
use crate::rule::Rule;
use crate::walk::merged;
use be_geom::{NoMemory, OutOfRange, Rect};
use std::alloc::Global;
use std::marker::Model;

/// A set of pixels: `BRegion`.
///
/// Its rectangles are the spans of its bands, by band from the top down, then from left to right.
#[derive(Debug, Drop)]
pub struct Region {
    rects: Vec<Rect>,
}

impl Model for Region {
    ghost use Rattle.std.specs.Prelude.{List};
    ghost use Rattle.be_geom.specs.declared.rect.Rect.{Rect};
    ghost use Rattle.be_region.specs.Bands.{AreBands};

    ghost Value = { List Rect };

    ghost view = { λ r. r.rects.items };

    ghost invariant = { λ r. AreBands r.rects.items };
}

impl Region {
    /// The set without pixels.
    pub fn empty(alloc: Global) -> Region
        ensures { HasNone result }
    {
        Region {
            rects: Vec::new(alloc),
        }
    }

    /// The pixels of a rectangle, which may be empty.
    pub fn from_rect(alloc: Global, rect: Rect) -> Result<Region, NoMemory>
        ensures { IfOk result (λ region. HasPixelsOf region rect) }
    {
        let mut rects = Vec::new(alloc);
        if !rect.is_empty() {
            rects.push(rect)?;
        }
        Ok(Region { rects })
    }

    /// Adds the pixels of another set: `BRegion::Include`.
    pub fn include(&mut self, other: &Region) -> Result<(), NoMemory>
        ensures ok { OnOk result (IsUnion self.new self.old other.now) }
        ensures err { OnErr result (self.new ≡ self.old) }
    {
        let alloc = *self.rects.allocator();
        self.rects = merged(alloc, &self.rects, &other.rects, Rule::Union)?;
        Ok(())
    }

    /// Takes the pixels of another set away: `BRegion::Exclude`.
    pub fn exclude(&mut self, other: &Region) -> Result<(), NoMemory>
        ensures ok { OnOk result (IsDifference self.new self.old other.now) }
        ensures err { OnErr result (self.new ≡ self.old) }
    {
        let alloc = *self.rects.allocator();
        self.rects = merged(alloc, &self.rects, &other.rects, Rule::Difference)?;
        Ok(())
    }

    /// Keeps the pixels that another set has too: `BRegion::IntersectWith`.
    pub fn intersect(&mut self, other: &Region) -> Result<(), NoMemory>
        ensures ok { OnOk result (IsIntersection self.new self.old other.now) }
        ensures err { OnErr result (self.new ≡ self.old) }
    {
        let alloc = *self.rects.allocator();
        self.rects = merged(alloc, &self.rects, &other.rects, Rule::Intersection)?;
        Ok(())
    }

    /// A region of these pixels, on the same allocator.
    pub fn copy(&self) -> Result<Region, NoMemory>
        ensures { IfOk result (λ region. SamePixels region self.now) }
    {
        let alloc = *self.rects.allocator();
        Ok(Region {
            rects: Vec::from_slice(alloc, &self.rects)?,
        })
    }

    /// Moves each pixel by `dx` to the right and `dy` down: `BRegion::OffsetBy`.
    pub fn offset(&mut self, dx: i32, dy: i32) -> Result<(), OutOfRange>
        ensures ok { OnOk result (IsMoved self.new self.old dx dy) }
        ensures out { IsErr result ↔ SomePixelLeaves self.old dx dy }
        ensures err { OnErr result (self.new ≡ self.old) }
    {
        if !are_movable(&self.rects, dx, dy) {
            return Err(OutOfRange);
        }
        move_all(&mut self.rects, dx, dy);
        Ok(())
    }

    /// Whether the pixel is in the set: `BRegion::Contains`.
    pub fn contains(&self, x: i32, y: i32) -> bool
        ensures { result ≡ region_has self.now x y }
    {
        has_at(&self.rects, x, y)
    }

    /// Whether the pixel is in the set, and the last column up to which that stays so along the
    /// row.
    pub fn run_at(&self, x: i32, y: i32) -> (bool, i32)
        ensures answer { result.0 ≡ region_has self.now x y }
        ensures run { IsRun (λ z. region_has self.now z y) x result.1 }
    {
        run_at(&self.rects, x, y)
    }

    /// The number of rectangles: `BRegion::CountRects`.
    pub fn count(&self) -> usize
        ensures number { result ≡ length self.now }
        ensures bands { AreBands self.now }
    {
        self.rects.len()
    }

    /// A rectangle by its place, counted from 0, by bands from the top down and then from left to
    /// right: `BRegion::RectAt`.
    pub fn rect_at(&self, place: usize) -> Option<Rect>
        ensures none { IsNone result ↔ (length self.now ≤ place) }
        ensures at_place { result ≡ slice_get self.now place }
        ensures bands { AreBands self.now }
    {
        self.rects.get(place).copied()
    }

    /// The place of the rectangle that has the pixel, as `rect_at` counts. None outside the set.
    pub fn span_at(&self, x: i32, y: i32) -> Option<usize>
        ensures none { IfNone result (region_has self.now x y ≡ false) }
        ensures some { IfSome result (λ place. IsSpanAt self.now place x y) }
        ensures bands { AreBands self.now }
    {
        span_at(&self.rects, x, y)
    }

    /// The smallest rectangle that holds the set: `BRegion::Frame`. None where the set is empty.
    pub fn frame(&self) -> Option<Rect>
        ensures none { IsNone result ↔ HasNone self.now }
        ensures some { IfSome result (λ frame. IsFrame frame self.now) }
    {
        frame_of(&self.rects)
    }
}

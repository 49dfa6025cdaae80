ghost use Rattle.std.specs.Prelude.{◌≡◌, ℤ, pos, ◌≤ℤ◌, ◌<ℤ◌, ◌+ℤ◌, ◌||◌, ◌&&◌, ◌++◌, [], IfOk};
ghost use Rattle.std.specs.Prelude.{OnOk, IsTrue, ◌↔◌};
ghost use Rattle.be_geom.specs.Points.{between};
ghost use Rattle.be_region.specs.Regions.{region_has};
ghost use Rattle.be_region.specs.Rows.{AreAbove};
ghost use Rattle.be_region.specs.Spans.{spans_have, AreSpans, AreOpenBands, kept_of, bands_of};
ghost use Rattle.be_region.specs.Spans.{rects_of, rect_of};

use crate::span::{Span, Spans};
use be_geom::{NoMemory, Rect};
use smallvec::SmallVec;
use std::mem;

/// The bands of a region that is made from its top down, behind rectangles that stay.
#[derive(Drop)]
pub(crate) struct Bands {
    /// The rectangles that stay, then the bands that are done.
    pub rects: Vec<Rect>,
    /// How many rectangles stay.
    pub kept: usize,
    /// The last band, which may still grow down.
    pub spans: Spans,
    pub top: i16,
    pub bottom: i16,
}

impl Bands {
    /// No bands yet, behind rectangles.
    pub(crate) fn behind(rects: Vec<Rect>) -> Bands
        ensures bands { AreOpenBands result }
        ensures none { bands_of result ≡ [] }
        ensures kept { kept_of result ≡ rects.items }
    {
        let alloc = *rects.allocator();
        let kept = rects.len();
        Bands {
            rects,
            kept,
            spans: SmallVec::new(alloc),
            top: 0,
            bottom: 0,
        }
    }

    /// Adds rows below all others. The spans are used up.
    pub(crate) fn add(&mut self, spans: &mut Spans, top: i16, bottom: i16) -> Result<(), NoMemory>
        requires bands { AreOpenBands self.old }
        requires above { AreAbove top (bands_of self.old) }
        requires down { top ≤ℤ bottom }
        requires apart { AreSpans spans.old.items }
        ensures bands { OnOk result (AreOpenBands self.new) }
        ensures above { OnOk result (AreAbove (bottom +ℤ pos 1) (bands_of self.new)) }
        ensures kept { OnOk result (kept_of self.new ≡ kept_of self.old) }
        ensures pixels { OnOk result ((x y : ℤ) → region_has (bands_of self.new) x y
            ≡ (region_has (bands_of self.old) x y
            || (between top y bottom && spans_have spans.old.items x))) }
    {
        if spans.is_empty() {
            return Ok(());
        }
        if self.goes_on(spans.as_slice(), top) {
            self.bottom = bottom;
            return Ok(());
        }
        push_rects(
            &mut self.rects,
            self.spans.as_slice(),
            self.top,
            self.bottom,
        )?;
        mem::swap(&mut self.spans, spans);
        self.top = top;
        self.bottom = bottom;
        Ok(())
    }

    /// Whether rows with these spans, from `top` on, are further rows of the last band.
    fn goes_on(&self, spans: &[Span], top: i16) -> bool
        ensures { IsTrue result
            ↔ ((self.now.spans.items ≡ spans.now) × ((self.now.bottom +ℤ pos 1) ≡ top)) }
    {
        same_spans(self.spans.as_slice(), spans) && i32::from(self.bottom) + 1 == i32::from(top)
    }

    /// The rectangles that stay, and behind them those of all bands.
    pub(crate) fn finish(mut self) -> Result<Vec<Rect>, NoMemory>
        requires { AreOpenBands self }
        ensures { IfOk result (λ v. v.items ≡ kept_of self ++ bands_of self) }
    {
        push_rects(
            &mut self.rects,
            self.spans.as_slice(),
            self.top,
            self.bottom,
        )?;
        Ok(self.rects)
    }
}

fn same_spans(one: &[Span], other: &[Span]) -> bool
    ensures { IsTrue result ↔ (one.now ≡ other.now) }
{
    one == other
}

fn push_rects(rects: &mut Vec<Rect>, spans: &[Span], top: i16, bottom: i16) -> Result<(), NoMemory>
    ensures { OnOk result (rects.new.items ≡ rects.old.items ++ rects_of spans.now top bottom) }
{
    for span in spans {
        rects.push(rect_of(*span, top, bottom))?;
    }
    Ok(())
}

fn rect_of(span: Span, top: i16, bottom: i16) -> Rect
    ensures { result ≡ rect_of top bottom span }
{
    Rect {
        left: span.left,
        top,
        right: span.right,
        bottom,
    }
}

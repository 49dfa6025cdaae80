ghost use Rattle.std.specs.Prelude.{◌≡◌, ℤ, true, false, Some, Contains, IfOk, IsSome};
ghost use Rattle.std.specs.Prelude.{if◌then◌else◌};
ghost use Rattle.std.specs.List.{list_any};
ghost use Rattle.be_region.specs.Regions.{region_has};
ghost use Rattle.be_span.specs.declared.Cell.{Cell};
ghost use Rattle.be_span.specs.Spans.{cell_in, laid};
ghost use Rattle.be_desk.specs.Plans.{lent};
ghost use Rattle.be_desk.specs.Renewals.{AreColored, AreShown, AreUnder, IsBackground};
ghost use Rattle.be_desk.specs.Renewals.{IsNearBy, brought_to, is_clear, is_in_some, renewed_cell};
ghost use Rattle.be_desk.specs.declared.renewal.Motion.TheVariants.{Still};

use crate::exposing::expose;
use be_color::{Color, Rgb};
use be_geom::{NoMemory, Point};
use be_pane::Pane;
use be_region::Region;
use be_span::SpanBuf;
use be_views::ViewTree;
use std::alloc::Global;

/// How a change treats the pixels that its window keeps.
#[derive(Clone, Copy)]
pub(crate) enum Motion {
    /// They stay.
    Still,
    /// They go with the window.
    Moving {
        /// How far right it goes.
        x: i32,
        /// How far down.
        y: i32,
    },
    /// They stay where nothing within the window shifts.
    Resizing,
}

/// Whether the pixels that a window keeps stay where they are.
pub(crate) fn is_still(motion: Motion) -> bool
    ensures { result ≡ true → motion ≡ Still }
{
    match motion {
        Motion::Still => true,
        Motion::Moving { .. } | Motion::Resizing => false,
    }
}

/// What becomes of a window in a change.
#[derive(Clone, Copy)]
pub(crate) struct Renewal<'a> {
    /// The window before the change.
    pub pane: &'a Pane,
    /// Its left top afterwards, in screen coordinates.
    pub place: Point,
    /// Its views afterwards.
    pub tree: &'a ViewTree,
    pub motion: Motion,
}

/// The pixels of `region`, which the window owns afterwards, each with its cell. `panes` are all
/// whose pixels may come to be the window's, and its own is among them.
///
/// Memory is taken once, for the cells. What the window keeps is copied by runs, and what is newly
/// exposed is found by runs: no pixel is looked at by itself. The other panes are looked at only
/// where a view is transparent.
pub(crate) fn renewed(
    alloc: Global,
    renewal: &Renewal<'_>,
    panes: &[&Pane],
    region: Region,
) -> Result<SpanBuf, NoMemory>
    requires listed { Contains (lent panes.now) renewal.now.pane.now }
    requires colored { AreColored renewal.now region }
    requires near { IsNearBy renewal.now.motion }
    ensures region { IfOk result (λ spans. spans.rects ≡ region) }
    ensures cells { IfOk result (λ spans. (cells : ℤ → ℤ → Cell)
        → AreUnder (lent panes.now) region cells → (x y : ℤ) → region_has region x y ≡ true
        → cell_in spans x y ≡ Some (renewed_cell renewal.now x y (cells x y))) }
{
    let mut spans = background(alloc, region, &renewal.pane.colors, panes)?;
    lay_own(&mut spans, renewal);
    expose(&mut spans, renewal);
    Ok(spans)
}

/// The pixels of a region in the desktop's colour. Where a colour is transparent, what the screen
/// shows there.
fn background(
    alloc: Global,
    region: Region,
    colors: &[Color],
    panes: &[&Pane],
) -> Result<SpanBuf, NoMemory>
    ensures region { IfOk result (λ spans. spans.rects ≡ region) }
    ensures cells { IfOk result (λ spans. (cells : ℤ → ℤ → Cell)
        → AreUnder (lent panes.now) region cells → (x y : ℤ) → region_has region x y ≡ true
        → IsBackground colors.now (cells x y) (cell_in spans x y)) }
{
    let mut spans = SpanBuf::filled(alloc, region, Rgb::DESKTOP)?;
    if has_clear(colors) {
        lay_panes(&mut spans, panes);
    }
    Ok(spans)
}

/// Whether a colour is transparent.
fn has_clear(colors: &[Color]) -> bool
    ensures { result ≡ list_any is_clear colors.now }
{
    colors.iter().any(|color| is_clear(*color))
}

fn is_clear(color: Color) -> bool
    ensures { result ≡ is_clear color }
{
    match color {
        Color::Solid(_) => false,
        Color::Clear => true,
    }
}

/// Gives each pixel the cell that a pane has there.
fn lay_panes(spans: &mut SpanBuf, panes: &[&Pane])
    ensures region { spans.new.rects ≡ spans.old.rects }
    ensures cells { (cells : ℤ → ℤ → Cell) → AreShown cells (lent panes.now)
        → (x y : ℤ) → IsSome (cell_in spans.old x y) → cell_in spans.new x y
        ≡ (if is_in_some (lent panes.now) x y then Some (cells x y) else cell_in spans.old x y) }
{
    for pane in panes {
        spans.lay(&pane.spans, 0, 0);
    }
}

/// Gives each pixel the cell that the window brings there.
fn lay_own(spans: &mut SpanBuf, renewal: &Renewal<'_>)
    ensures region { spans.new.rects ≡ spans.old.rects }
    ensures cells { (x y : ℤ) → cell_in spans.new x y
        ≡ laid (brought_to renewal.now x y) (cell_in spans.old x y) }
{
    match renewal.motion {
        Motion::Moving { x, y } => spans.lay(&renewal.pane.spans, x, y),
        Motion::Still | Motion::Resizing => spans.lay(&renewal.pane.spans, 0, 0),
    }
}

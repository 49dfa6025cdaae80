ghost use Rattle.std.specs.Prelude.{◌≡◌, ℤ, ◌-ℤ◌, true, false, All, Contains, IfOk, IsSome, None, Some, length};
ghost use Rattle.std.specs.List.{list_any};
ghost use Rattle.be_region.specs.Regions.{region_has, SamePixels};
ghost use Rattle.be_span.specs.declared.Cell.{Cell};
ghost use Rattle.be_span.specs.Spans.{cell_in, pixels_of};
ghost use Rattle.be_desk.specs.Plans.{AreForPixels, lent, renewed_spans};
ghost use Rattle.be_desk.specs.Renewals.{AreColored, AreUnder, IsNearBy, KeepsAt, owned, renewed_cell};
ghost use Rattle.be_desk.specs.Ready.{IsShiftBy};
ghost use Rattle.be_desk.specs.Shifts.{newest, shifted};

use crate::planned::Renewed;
use crate::renewal::{Motion, Renewal, renewed};
use crate::shift::Shift;
use crate::zone::beside;
use be_geom::NoMemory;
use be_pane::Pane;
use be_region::Region;
use be_span::{Next, SpanBuf};
use std::alloc::Global;

/// Makes ready the pixels of `region`, which the window owns afterwards. `panes` are all whose
/// pixels may come to be the window's, and its own is among them.
///
/// Where the pixels that the window keeps stay, or all go the same way, it costs those that are
/// newly exposed; in a resize all of them.
pub(crate) fn made_ready(
    alloc: Global,
    renewal: &Renewal<'_>,
    panes: &[&Pane],
    region: Region,
) -> Result<Renewed, NoMemory>
    requires listed { Contains (lent panes.now) renewal.now.pane.now }
    requires colored { AreColored renewal.now region }
    requires near { IsNearBy renewal.now.motion }
    ensures its { IfOk result (λ ready. AreForPixels ready renewal.now.pane.now.spans.rects) }
    ensures region { IfOk result (λ ready.
        SamePixels (renewed_spans ready renewal.now.pane.now.spans).rects region) }
    ensures cells { IfOk result (λ ready. (cells : ℤ → ℤ → Cell)
        → AreUnder (lent panes.now) region cells → (x y : ℤ) → region_has region x y ≡ true
        → cell_in (renewed_spans ready renewal.now.pane.now.spans) x y
        ≡ Some (renewed_cell renewal.now x y (cells x y))) }
{
    match renewal.motion {
        Motion::Still => shifted(alloc, renewal, panes, region, 0, 0),
        Motion::Moving { x, y } => shifted(alloc, renewal, panes, region, x, y),
        Motion::Resizing => Ok(Renewed::Whole(renewed(alloc, renewal, panes, region)?)),
    }
}

/// The same, where the pixels that the window keeps go `dx` to the right and `dy` down.
fn shifted(
    alloc: Global,
    renewal: &Renewal<'_>,
    panes: &[&Pane],
    region: Region,
    dx: i32,
    dy: i32,
) -> Result<Renewed, NoMemory>
    requires listed { Contains (lent panes.now) renewal.now.pane.now }
    requires colored { AreColored renewal.now region }
    requires near { IsNearBy renewal.now.motion }
    requires way { KeepsAt renewal.now dx dy }
    ensures its { IfOk result (λ ready. AreForPixels ready renewal.now.pane.now.spans.rects) }
    ensures region { IfOk result (λ ready.
        SamePixels (renewed_spans ready renewal.now.pane.now.spans).rects region) }
    ensures cells { IfOk result (λ ready. (cells : ℤ → ℤ → Cell)
        → AreUnder (lent panes.now) region cells → (x y : ℤ) → region_has region x y ≡ true
        → cell_in (renewed_spans ready renewal.now.pane.now.spans) x y
        ≡ Some (renewed_cell renewal.now x y (cells x y))) }
{
    let mut moved = renewal.pane.spans.region().copy()?;
    let Ok(()) = moved.offset(dx, dy) else {
        return Ok(Renewed::Whole(renewed(alloc, renewal, panes, region)?));
    };
    let shift = shift_to(alloc, renewal, panes, region, dx, dy, moved)?;
    Ok(Renewed::InPlace(shift))
}

/// The same, where the pixels that the window had are in `moved`, each so far right and down.
fn shift_to(
    alloc: Global,
    renewal: &Renewal<'_>,
    panes: &[&Pane],
    region: Region,
    dx: i32,
    dy: i32,
    moved: Region,
) -> Result<Shift, NoMemory>
    requires listed { Contains (lent panes.now) renewal.now.pane.now }
    requires colored { AreColored renewal.now region }
    requires near { IsNearBy renewal.now.motion }
    requires way { KeepsAt renewal.now dx dy }
    requires moved { (x y : ℤ) → region_has moved x y ≡ owned renewal.now (x -ℤ dx) (y -ℤ dy) }
    ensures its { IfOk result (λ shift. SamePixels shift.from renewal.now.pane.now.spans.rects) }
    ensures region { IfOk result (λ shift. shift.next ≡ region) }
    ensures cells { IfOk result (λ shift. (cells : ℤ → ℤ → Cell)
        → AreUnder (lent panes.now) region cells → (x y : ℤ) → region_has region x y ≡ true
        → cell_in (shifted shift.dx shift.dy shift.next shift.fresh.items
        renewal.now.pane.now.spans) x y ≡ Some (renewed_cell renewal.now x y (cells x y))) }
{
    let exposed = beside(&region, &moved)?;
    let fresh = fresh_parts(alloc, renewal, panes, &exposed)?;
    let from = renewal.pane.spans.region().copy()?;
    shift_of(alloc, dx, dy, from, region, moved, fresh)
}

/// A way, the pixels before and those afterwards, with the first where they have gone and with what
/// is newly exposed.
fn shift_of(
    alloc: Global,
    dx: i32,
    dy: i32,
    from: Region,
    region: Region,
    moved: Region,
    fresh: Vec<SpanBuf>,
) -> Result<Shift, NoMemory>
    requires moved { (x y : ℤ) → region_has moved x y ≡ region_has from (x -ℤ dx) (y -ℤ dy) }
    requires fresh { (x y : ℤ) → region_has region x y ≡ true → region_has moved x y ≡ false
        → IsSome (newest fresh.items x y None) }
    ensures { IfOk result (IsShiftBy dx dy from region fresh.items) }
{
    let mut given = moved;
    given.exclude(&region)?;
    let next = Next::new(alloc, region)?;
    Ok(Shift {
        dx,
        dy,
        from,
        next,
        given,
        fresh,
    })
}

/// The pixels of each rectangle of a region with their cells, all of them newly exposed.
fn fresh_parts(
    alloc: Global,
    renewal: &Renewal<'_>,
    panes: &[&Pane],
    exposed: &Region,
) -> Result<Vec<SpanBuf>, NoMemory>
    requires listed { Contains (lent panes.now) renewal.now.pane.now }
    requires colored { AreColored renewal.now exposed.now }
    requires near { IsNearBy renewal.now.motion }
    ensures region { IfOk result (λ parts. (x y : ℤ)
        → list_any (λ s. region_has s.rects x y) parts.items ≡ region_has exposed.now x y) }
    ensures whole { IfOk result (λ parts. All (λ s. length s.cells ≡ pixels_of s.rects) parts.items) }
    ensures cells { IfOk result (λ parts. (cells : ℤ → ℤ → Cell)
        → AreUnder (lent panes.now) exposed.now cells
        → All (λ s. (x y : ℤ) → region_has s.rects x y ≡ true
        → cell_in s x y ≡ Some (renewed_cell renewal.now x y (cells x y))) parts.items) }
{
    let mut parts = Vec::with_capacity(alloc, exposed.count())?;
    for place in 0..exposed.count() {
        let rect = exposed.rect_at(place).unwrap();
        let pixels = Region::from_rect(alloc, rect)?;
        let part = renewed(alloc, renewal, panes, pixels)?;
        part.whole();
        parts.push(part)?;
    }
    Ok(parts)
}

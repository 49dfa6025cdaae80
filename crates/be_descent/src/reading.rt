ghost use Rattle.std.specs.Prelude.{◌≡◌, ◌≤◌, ℤ, ◌-ℤ◌, ◌&&◌, true, false, IfSome};
ghost use Rattle.be_geom.specs.Places.{IsNear};
ghost use Rattle.be_geom.specs.Rects.{rect_has};
ghost use Rattle.be_region.specs.Regions.{IsNotEmpty, region_has};
ghost use Rattle.be_span.specs.Painting.{IsPainted};
ghost use Rattle.be_span.specs.Spans.{area_of, cell_in, is_dirty};
ghost use Rattle.be_descent.specs.Pieces.{as_read, nothing, IsRead, IsTakenWhole};
ghost use Rattle.be_descent.specs.Places.{has_moved, lies_at};

use crate::part::part_in;
use crate::taken::Taken;
use crate::walk::next_in;
use crate::way::Way;
use be_color::Rgb;
use be_geom::Rect;
use be_span::{Alike, Cell, Piece, SpanBuf, Write, unmark_all};

/// What stands for a pixel that isn't read.
const NOTHING: Cell = Cell {
    rgb: Rgb::BLACK,
    dirty: true,
};

/// Which pixels are read: those in a rectangle, but for the frames in front.
#[derive(Clone, Copy)]
pub struct Source<'a> {
    /// None where no pixel is read.
    pub shown: Option<Rect>,
    pub frames: &'a [Rect],
    /// From a pixel to the one for which it is read.
    pub way: Way,
}

/// Reads what comes to the pixels of an area. A cell of the piece is dirty where nothing does: at
/// none where the answer is true.
pub fn read(piece: &mut Piece, spans: &SpanBuf, source: &Source<'_>, area: Rect) -> bool
    requires some { IsNotEmpty area }
    requires room { area_of area ≤ 1024 }
    requires near { IsNear 4 source.now.way.right × IsNear 4 source.now.way.down }
    ensures read { IsRead spans.now source.now area piece.new }
    ensures whole { result ≡ true → (x y : ℤ) → is_dirty (cell_in piece.new x y) ≡ false }
{
    if let Some(taken) = taken_whole(spans, source, area) {
        piece.begin(area, &taken);
        return true;
    }
    read_parts(piece, spans, source, area);
    piece.is_clean()
}

/// What comes to an area, where all of it comes from one span.
fn taken_whole<'a>(spans: &'a SpanBuf, source: &Source<'_>, area: Rect) -> Option<Taken<'a>>
    requires near { IsNear 4 source.now.way.right × IsNear 4 source.now.way.down }
    ensures { IfSome result (IsTakenWhole spans.now source.now area) }
{
    let way = source.way;
    let shown = source.shown?;
    if part_in(area, shown, way)? != area || !are_apart(source.frames, way, area) {
        return None;
    }
    let found = next_in(spans.region(), 0, way, area)?;
    if found.part != area {
        return None;
    }
    let place = found.after - 1;
    let span = spans.span(place);
    Some(Taken {
        spans,
        place,
        span,
        rect: span.rect(),
        way,
    })
}

/// Whether no frame has a pixel of an area.
fn are_apart(frames: &[Rect], way: Way, area: Rect) -> bool
    ensures { result ≡ true → (x y : ℤ) → (rect_has area x y && lies_at frames.now way x y)
        ≡ false }
{
    for frame in frames {
        if part_in(area, *frame, way).is_some() {
            return false;
        }
    }
    true
}

/// Reads what comes to the pixels of an area from all spans.
fn read_parts(piece: &mut Piece, spans: &SpanBuf, source: &Source<'_>, area: Rect)
    requires some { IsNotEmpty area }
    requires room { area_of area ≤ 1024 }
    requires near { IsNear 4 source.now.way.right × IsNear 4 source.now.way.down }
    ensures { IsRead spans.now source.now area piece.new }
{
    piece.begin(area, &Alike { cell: NOTHING });
    let Some(shown) = source.shown else {
        return;
    };
    let Some(part) = part_in(area, shown, source.way) else {
        return;
    };
    read_rects(piece, spans, part, source.way);
    leave_out(piece, source.frames, source.way, area);
}

/// Leaves out of a piece, whose pixels are those of an area, what the frames have.
fn leave_out(piece: &mut Piece, frames: &[Rect], way: Way, area: Rect)
    requires own { (x y : ℤ) → rect_has area x y ≡ true → region_has piece.old.rects x y ≡ true }
    ensures { IsPainted (λ x y c. nothing)
        (λ x y. rect_has area x y && lies_at frames.now way x y) piece.old piece.new }
{
    for frame in frames {
        leave_frame(piece, *frame, way, area);
    }
}

/// Leaves out of it what a frame has.
fn leave_frame(piece: &mut Piece, frame: Rect, way: Way, area: Rect)
    requires own { (x y : ℤ) → rect_has area x y ≡ true → region_has piece.old.rects x y ≡ true }
    ensures { IsPainted (λ x y c. nothing)
        (λ x y. rect_has area x y && has_moved frame way x y) piece.old piece.new }
{
    if let Some(part) = part_in(area, frame, way) {
        piece.write(part, &Alike { cell: NOTHING });
    }
}

/// Reads the pixels of a part that come from the buffer.
fn read_rects(piece: &mut Piece, spans: &SpanBuf, part: Rect, way: Way)
    requires near { IsNear 4 way.right × IsNear 4 way.down }
    requires own { (x y : ℤ) → rect_has part x y ≡ true → region_has piece.old.rects x y ≡ true }
    ensures { IsPainted (λ x y c. as_read (cell_in spans.now (x -ℤ way.right) (y -ℤ way.down)))
        (λ x y. rect_has part x y && (lies_at spans.now.rects way x y && true))
        piece.old piece.new }
{
    let mut place = 0;
    while let Some(found) = next_in(spans.region(), place, way, part) {
        let at = found.after - 1;
        let span = spans.span(at);
        let taken = Taken {
            spans,
            place: at,
            span,
            rect: span.rect(),
            way,
        };
        piece.write(found.part, &taken);
        place = found.after;
    }
}

impl Write for Taken<'_> {
    ghost cell = { λ s x y. as_read (cell_in s.spans.now (x -ℤ s.way.right) (y -ℤ s.way.down)) };

    ghost knows = { λ s x y. has_moved s.rect s.way x y };

    #[inline(always)]
    fn write(&self, cells: &mut [Cell], x: i32, y: i32) {
        let x = x - self.way.right;
        let y = y - self.way.down;
        let row = self.spans.cells_in(self.span, x, y, cells.len());
        cells.copy_from_slice(row);
        if !self.spans.is_clean() {
            unmark_all(cells);
        }
    }
}

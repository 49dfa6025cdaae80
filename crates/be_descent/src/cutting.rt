ghost use Rattle.std.specs.Prelude.{◌≡◌, ◌≤ℤ◌, ◌<ℤ◌, true, false};
ghost use Rattle.be_geom.specs.Rects.{AreDisjoint};
ghost use Rattle.be_region.specs.Regions.{IsNotEmpty};
ghost use Rattle.be_descent.specs.Cutting.{AreHalves, IsCut, Meet};

use be_geom::Rect;

/// A rectangle, cut at an edge of a frame.
#[derive(Clone, Copy, Debug)]
pub(crate) enum Cut {
    /// The frame has none of its pixels.
    Apart,
    /// It has all of them.
    Covered,
    /// It has none of the first part, and maybe some of the second.
    Two(Rect, Rect),
}

/// Cuts a rectangle at an edge of a frame that it goes across.
pub(crate) fn cut_at(area: Rect, frame: Rect) -> Cut
    requires area { IsNotEmpty area }
    requires frame { IsNotEmpty frame }
    ensures { IsCut area frame result }
{
    if are_apart(area, frame) {
        return Cut::Apart;
    }
    if area.top < frame.top {
        let (above, rest) = rows_at(area, frame.top);
        return Cut::Two(above, rest);
    }
    if frame.bottom < area.bottom {
        let (rest, below) = rows_at(area, frame.bottom + 1);
        return Cut::Two(below, rest);
    }
    if area.left < frame.left {
        let (left, rest) = columns_at(area, frame.left);
        return Cut::Two(left, rest);
    }
    if frame.right < area.right {
        let (rest, right) = columns_at(area, frame.right + 1);
        return Cut::Two(right, rest);
    }
    Cut::Covered
}

/// The rows of a rectangle above one of them, and the others.
pub(crate) fn rows_at(area: Rect, row: i16) -> (Rect, Rect)
    requires across { area.left ≤ℤ area.right }
    requires below { area.top <ℤ row }
    requires inside { row ≤ℤ area.bottom }
    ensures halves { AreHalves area result.0 result.1 }
    ensures above { result.0.bottom <ℤ row }
    ensures rest { row ≤ℤ result.1.top }
{
    let above = Rect {
        bottom: row - 1,
        ..area
    };
    (above, Rect { top: row, ..area })
}

/// The columns of a rectangle left of one of them, and the others.
pub(crate) fn columns_at(area: Rect, column: i16) -> (Rect, Rect)
    requires down { area.top ≤ℤ area.bottom }
    requires behind { area.left <ℤ column }
    requires inside { column ≤ℤ area.right }
    ensures halves { AreHalves area result.0 result.1 }
    ensures before { result.0.right <ℤ column }
    ensures rest { column ≤ℤ result.1.left }
{
    let before = Rect {
        right: column - 1,
        ..area
    };
    let rest = Rect {
        left: column,
        ..area
    };
    (before, rest)
}

/// Whether two rectangles have no pixel in common.
fn are_apart(area: Rect, frame: Rect) -> bool
    ensures apart { result ≡ true → AreDisjoint area frame }
    ensures meet { result ≡ false → Meet area frame }
{
    if area.right < frame.left || frame.right < area.left {
        return true;
    }
    area.bottom < frame.top || frame.bottom < area.top
}

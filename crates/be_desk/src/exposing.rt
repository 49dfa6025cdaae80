ghost use Rattle.std.specs.Prelude.{◌≡◌, ℤ, negsuc, pos, ◌+ℤ◌, ◌≤ℤ◌, true, Option, slice_get};
ghost use Rattle.std.specs.Prelude.{option_and_then, if◌then◌else◌};
ghost use Rattle.std.specs.Option.{option_map};
ghost use Rattle.be_geom.specs.Rects.{rect_has};
ghost use Rattle.be_region.specs.Regions.{IsNotEmpty, region_has};
ghost use Rattle.be_span.specs.Cells.{exposed_as};
ghost use Rattle.be_span.specs.Spans.{cell_in};
ghost use Rattle.be_geom.specs.Stretches.{IsCoordinate, IsStretch};
ghost use Rattle.be_desk.specs.Exposing.{IsRuledRow};
ghost use Rattle.be_desk.specs.Renewals.{IsNearBy, color_at, exposed_by, exposure};

use crate::kept::view_run;
use crate::renewal::Renewal;
use be_color::Color;
use be_geom::Rect;
use be_span::SpanBuf;

/// Exposes each pixel that the window doesn't keep, in the colour of the view there.
pub(crate) fn expose(spans: &mut SpanBuf, renewal: &Renewal<'_>)
    requires near { IsNearBy renewal.now.motion }
    ensures region { spans.new.rects ≡ spans.old.rects }
    ensures cells { (x y : ℤ) → cell_in spans.new x y
        ≡ option_map (exposed_by renewal.now x y) (cell_in spans.old x y) }
{
    for place in 0..spans.region().count() {
        let rect = spans.region().rect_at(place).unwrap();
        expose_rect(spans, renewal, rect);
    }
}

/// The same on the pixels of a rectangle.
fn expose_rect(spans: &mut SpanBuf, renewal: &Renewal<'_>, rect: Rect)
    requires near { IsNearBy renewal.now.motion }
    requires some { IsNotEmpty rect }
    requires inside { (x y : ℤ) → rect_has rect x y ≡ true
        → region_has spans.old.rects x y ≡ true }
    ensures region { spans.new.rects ≡ spans.old.rects }
    ensures cells { (x y : ℤ) → cell_in spans.new x y ≡ (if rect_has rect x y
        then option_map (exposed_by renewal.now x y) (cell_in spans.old x y)
        else cell_in spans.old x y) }
{
    let left = i32::from(rect.left);
    let right = i32::from(rect.right);
    let bottom = i32::from(rect.bottom);
    let mut y = i32::from(rect.top);
    'rows: while y <= bottom {
        expose_row(spans, renewal, y, left, right);
        y += 1;
    }
}

/// The same on the pixels of a row between two columns.
fn expose_row(spans: &mut SpanBuf, renewal: &Renewal<'_>, y: i32, left: i32, right: i32)
    requires near { IsNearBy renewal.now.motion }
    requires row { IsCoordinate y }
    requires left { negsuc 32767 ≤ℤ left }
    requires forward { left ≤ℤ right }
    requires right { right ≤ℤ pos 32767 }
    requires inside { (x : ℤ) → left ≤ℤ x → x ≤ℤ right → region_has spans.old.rects x y ≡ true }
    ensures region { spans.new.rects ≡ spans.old.rects }
    ensures cells { IsRuledRow (exposed_by renewal.now)
        spans.old spans.new left y (right +ℤ pos 1) }
{
    let mut x = left;
    'runs: while x <= right {
        let (color, last) = renewal.exposure_run(x, y, right);
        expose_run(spans, x, y, last, color);
        x = last + 1;
    }
}

/// Exposes the pixels of a row from one on up to the last column. None where they stay.
fn expose_run(spans: &mut SpanBuf, x: i32, y: i32, last: i32, color: Option<Color>)
    requires left { negsuc 32767 ≤ℤ x }
    requires forward { x ≤ℤ last }
    requires right { last ≤ℤ pos 32767 }
    requires inside { (z : ℤ) → x ≤ℤ z → z ≤ℤ last → region_has spans.old.rects z y ≡ true }
    ensures region { spans.new.rects ≡ spans.old.rects }
    ensures cells { IsRuledRow (λ z w. exposed_as color)
        spans.old spans.new x y (last +ℤ pos 1) }
{
    let Some(color) = color else {
        return;
    };
    let count = (last - x + 1) as usize;
    spans.expose_row(x, y, count, color);
}

impl Renewal<'_> {
    /// The colour in which the pixels of a row are newly exposed from a pixel of the screen on, and
    /// up to which column, `end` at most. None where they are kept.
    fn exposure_run(&self, x: i32, y: i32, end: i32) -> (Option<Color>, i32)
        requires near { IsNearBy self.now.motion }
        requires row { IsCoordinate y }
        requires left { negsuc 32767 ≤ℤ x }
        requires forward { x ≤ℤ end }
        requires right { end ≤ℤ pos 32767 }
        ensures answer { result.0 ≡ exposure self.now x y }
        ensures run { IsStretch (λ z. exposure self.now z y) x end result.1 }
    {
        let (kept, last) = self.kept_run(x, y, end);
        if kept {
            return (None, last);
        }
        self.color_run(x, y, last)
    }

    /// The same of the views' colours alone.
    fn color_run(&self, x: i32, y: i32, end: i32) -> (Option<Color>, i32)
        requires row { IsCoordinate y }
        requires left { negsuc 32767 ≤ℤ x }
        requires forward { x ≤ℤ end }
        requires right { end ≤ℤ pos 32767 }
        ensures answer { result.0 ≡ color_at self.now x y }
        ensures run { IsStretch (λ z. color_at self.now z y) x end result.1 }
    {
        let (view, last) = view_run(self.tree, self.place, x, y, end);
        (self.color_of(view), last)
    }

    fn color_of(&self, view: Option<u16>) -> Option<Color>
        ensures { result ≡ option_and_then (slice_get self.now.pane.now.colors.items) view }
    {
        self.pane.colors.get(usize::from(view?)).copied()
    }
}

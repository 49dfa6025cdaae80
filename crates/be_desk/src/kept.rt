ghost use Rattle.std.specs.Prelude.{◌≡◌, ℤ, negsuc, pos, ◌+ℤ◌, ◌-ℤ◌, ◌≤ℤ◌, ◌⊎◌, ◌&&◌, Option};
ghost use Rattle.std.specs.Prelude.{option_map};
ghost use Rattle.be_geom.specs.declared.point.Point as points;
ghost use Rattle.be_span.specs.Laid.{IsShift};
ghost use Rattle.be_views.specs.Places.{pair_of};
ghost use Rattle.be_desk.specs.Changes as changes;
ghost use Rattle.be_geom.specs.Stretches.{IsCoordinate, IsStretch};
ghost use Rattle.be_desk.specs.Renewals.{IsNearBy, is_kept_at, is_kept_view, owned};
ghost use Rattle.be_desk.specs.Renewals.{shows_same_spot, view_from};

use crate::renewal::{Motion, Renewal};
use be_geom::Point;
use be_views::ViewTree;

impl Renewal<'_> {
    /// Whether the window keeps what it shows at a pixel of the screen, and the last column,
    /// `end` at most, up to which that stays so at least.
    pub(crate) fn kept_run(&self, x: i32, y: i32, end: i32) -> (bool, i32)
        requires near { IsNearBy self.now.motion }
        requires row { IsCoordinate y }
        requires left { negsuc 32767 ≤ℤ x }
        requires forward { x ≤ℤ end }
        requires right { end ≤ℤ pos 32767 }
        ensures answer { result.0 ≡ is_kept_at self.now x y }
        ensures run { IsStretch (λ z. is_kept_at self.now z y) x end result.1 }
    {
        match self.motion {
            Motion::Still => self.owned_run(x, y, end),
            Motion::Moving { x: dx, y: dy } => self.moved_run(dx, dy, x, y, end),
            Motion::Resizing => self.resized_run(x, y, end),
        }
    }

    /// The same where pixels stay.
    fn owned_run(&self, x: i32, y: i32, end: i32) -> (bool, i32)
        requires forward { x ≤ℤ end }
        ensures answer { result.0 ≡ owned self.now x y }
        ensures run { IsStretch (λ z. owned self.now z y) x end result.1 }
    {
        let (owned, last) = self.pane.spans.region().run_at(x, y);
        (owned, last.min(end))
    }

    /// The same where the window goes `dx` further right and `dy` further down.
    fn moved_run(&self, dx: i32, dy: i32, x: i32, y: i32, end: i32) -> (bool, i32)
        requires across { IsShift dx }
        requires down { IsShift dy }
        requires row { IsCoordinate y }
        requires left { negsuc 32767 ≤ℤ x }
        requires forward { x ≤ℤ end }
        requires right { end ≤ℤ pos 32767 }
        ensures answer { result.0 ≡ owned self.now (x -ℤ dx) (y -ℤ dy) }
        ensures run { IsStretch (λ z. owned self.now (z -ℤ dx) (y -ℤ dy)) x end result.1 }
    {
        let (owned, last) = self.pane.spans.region().run_at(x - dx, y - dy);
        (owned, last_column(last, dx, end))
    }

    /// The same where the window's size changes.
    fn resized_run(&self, x: i32, y: i32, end: i32) -> (bool, i32)
        requires row { IsCoordinate y }
        requires left { negsuc 32767 ≤ℤ x }
        requires forward { x ≤ℤ end }
        requires right { end ≤ℤ pos 32767 }
        ensures answer { result.0 ≡ (owned self.now x y && shows_same_spot self.now x y) }
        ensures run { IsStretch (λ z. owned self.now z y && shows_same_spot self.now z y)
            x end result.1 }
    {
        let (owned, last) = self.owned_run(x, y, end);
        if !owned {
            return (false, last);
        }
        self.spot_run(x, y, last)
    }

    /// The same of the spot alone that the window shows.
    fn spot_run(&self, x: i32, y: i32, end: i32) -> (bool, i32)
        requires row { IsCoordinate y }
        requires left { negsuc 32767 ≤ℤ x }
        requires forward { x ≤ℤ end }
        requires right { end ≤ℤ pos 32767 }
        ensures answer { result.0 ≡ shows_same_spot self.now x y }
        ensures run { IsStretch (λ z. shows_same_spot self.now z y) x end result.1 }
    {
        let (old, last) = view_run(&self.pane.tree, self.pane.place, x, y, end);
        let (new, last) = view_run(self.tree, self.place, x, y, last);
        (self.keeps_view(old, new), last)
    }

    /// Whether two views, one of before and one of afterwards, are one that lies where it lay.
    fn keeps_view(&self, old: Option<u16>, new: Option<u16>) -> bool
        ensures { result ≡ is_kept_view self.now.pane.now.tree self.now.tree.now old new }
    {
        match (old, new) {
            (Some(old), Some(new)) => {
                old == new && is_same_place(self.pane.tree.place_of(old), self.tree.place_of(new))
            }
            _ => false,
        }
    }
}

/// Whether there are two places, and they are the same.
fn is_same_place(old: Option<(i32, i32)>, new: Option<(i32, i32)>) -> bool
    ensures { (p q : Option points.Point) → old ≡ option_map pair_of p → new ≡ option_map pair_of q
        → result ≡ changes.is_same_place p q }
{
    match (old, new) {
        (Some(old), Some(new)) => old.0 == new.0 && old.1 == new.1,
        _ => false,
    }
}

/// The view at a pixel of the screen, in a window with its left top at the corner, and the last
/// column, `end` at most, up to which that stays so at least.
pub(crate) fn view_run(
    tree: &ViewTree,
    corner: Point,
    x: i32,
    y: i32,
    end: i32,
) -> (Option<u16>, i32)
    requires row { IsCoordinate y }
    requires left { negsuc 32767 ≤ℤ x }
    requires forward { x ≤ℤ end }
    requires right { end ≤ℤ pos 32767 }
    ensures answer { result.0 ≡ view_from tree.now corner x y }
    ensures run { IsStretch (λ z. view_from tree.now corner z y) x end result.1 }
{
    let left = i32::from(corner.x);
    let top = i32::from(corner.y);
    let (view, last) = tree.run_at(x - left, y - top);
    (view, last_column(last, left, end))
}

/// The last column on the screen, `end` at most, of what lasts up to column `last` of coordinates
/// that begin at `offset` on the screen.
fn last_column(last: i32, offset: i32, end: i32) -> i32
    requires left { negsuc 65535 ≤ℤ offset }
    requires right { offset ≤ℤ pos 65536 }
    requires low { negsuc 32767 ≤ℤ (last +ℤ offset) }
    requires from { negsuc 32767 ≤ℤ end }
    requires to { end ≤ℤ pos 32767 }
    ensures within { result ≤ℤ end }
    ensures lasts { result ≤ℤ (last +ℤ offset) }
    ensures one { (result ≡ end) ⊎ (result ≡ last +ℤ offset) }
{
    if last < end - offset {
        last + offset
    } else {
        end
    }
}

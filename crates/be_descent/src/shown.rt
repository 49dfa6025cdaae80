ghost use Rattle.std.specs.Prelude.{◌≡◌, ◌+◌, ◌<◌, ◌≤◌, ℤ, ◌-ℤ◌, true, false, ◌&&◌};
ghost use Rattle.std.specs.Prelude.{◌||◌, [], drop, length, IfNone, IfSome};
ghost use Rattle.be_geom.specs.Numbers.{is_number};
ghost use Rattle.be_geom.specs.Rects.{rect_has};
ghost use Rattle.be_region.specs.Regions.{region_has};
ghost use Rattle.be_views.specs.Clips.{covers, IsOutside};
ghost use Rattle.be_views.specs.Pixels.{view_at};
ghost use Rattle.be_views.specs.Whole.{IsTree};
ghost use Rattle.be_descent.specs.Fronts.{lying, shows, IsAdded, IsReached, IsShown};

use crate::fronts::Fronts;
use crate::part::part_in;
use crate::way::Way;
use be_geom::{Point, Rect};
use be_views::ViewTree;

/// What the frames round a view leave of an area of the screen.
#[derive(Clone, Copy, Debug)]
pub(crate) struct Reached {
    pub(crate) area: Rect,
    /// Where the view's left top is on the screen.
    pub(crate) way: Way,
}

impl Fronts {
    /// Finds where a view shows in an area of the screen: in the rectangle that it gives, which is
    /// the area cut to the view's frame and those round it, but for the frames in front, which it
    /// keeps. These are the frames of its children, and of the later siblings of the view and of
    /// each view round it. None only where it shows nowhere there. `window` is the window's left
    /// top on the screen. It goes once from the root to the view, and at each level over the views
    /// declared later.
    pub fn find(&mut self, tree: &ViewTree, view: u16, window: Point, area: Rect) -> Option<Rect>
        requires { view < length tree.now }
        ensures none { IfNone result ((x y : ℤ)
            → (rect_has area x y && shows tree.now view window x y) ≡ false) }
        ensures some { IfSome result (λ shown.
            IsShown tree.now view window area shown self.new) }
    {
        let end = tree.len() as u16;
        self.clear();
        let reached = self.reach(tree, end, view, window, area)?;
        self.add(tree, 0, end, view, reached.way, reached.area);
        Some(reached.area)
    }

    /// Cuts an area to the frame of a view and to those round it, and adds the frames in front of
    /// these. `end` is how many views there are.
    fn reach(
        &mut self,
        tree: &ViewTree,
        end: u16,
        view: u16,
        window: Point,
        area: Rect,
    ) -> Option<Reached>
        requires there { view < end }
        requires end { end ≡ length tree.now }
        requires whole { IsTree tree.now }
        requires none { self.old ≡ [] }
        ensures none { IfNone result ((x y : ℤ) → rect_has area x y ≡ true
            → IsOutside tree.now view (view_at tree.now (x -ℤ window.x) (y -ℤ window.y))) }
        ensures some { IfSome result (λ reached.
            IsReached tree.now view window area reached self.new) }
    {
        let frame = tree.frame_of(view).unwrap();
        let Some(parent) = tree.parent(view) else {
            let way = Way::to(window);
            let area = part_in(area, frame, way)?;
            return Some(Reached { area, way });
        };
        let reached = self.reach(tree, end, parent, window, area)?;
        let area = part_in(reached.area, frame, reached.way)?;
        self.add(tree, view + 1, end, parent, reached.way, area);
        let way = Way {
            right: reached.way.right + i32::from(frame.left),
            down: reached.way.down + i32::from(frame.top),
        };
        Some(Reached { area, way })
    }

    /// Adds the frames of the views from a number on that lie in one directly, as far as they have
    /// pixels of an area. That one's left top is on the screen where the way goes.
    fn add(&mut self, tree: &ViewTree, from: u16, end: u16, parent: u16, way: Way, area: Rect)
        requires from { from ≤ end }
        requires end { end ≡ length tree.now }
        requires room { length self.old + lying parent (drop from tree.now) ≤ 31 }
        ensures few { length self.new ≤ length self.old + lying parent (drop from tree.now) }
        ensures pixels { (x y : ℤ) → rect_has area x y ≡ true → region_has self.new x y
            ≡ (region_has self.old x y
            || covers (drop from tree.now) parent (x -ℤ way.right) (y -ℤ way.down)) }
    {
        for view in from..end {
            if lies_in(tree.parent(view), parent) {
                self.add_frame(tree, view, way, area);
            }
        }
    }

    /// Adds a view's frame, as far as it has pixels of an area.
    fn add_frame(&mut self, tree: &ViewTree, view: u16, way: Way, area: Rect)
        requires there { view < length tree.now }
        requires room { length self.old < 31 }
        ensures few { length self.new ≤ length self.old + 1 }
        ensures pixels { IsAdded tree.now view way area self.old self.new }
    {
        let frame = tree.frame_of(view).unwrap();
        if let Some(part) = part_in(area, frame, way) {
            self.push(part);
        }
    }
}

/// Whether there is a parent, and it is this one.
fn lies_in(parent: Option<u16>, view: u16) -> bool
    ensures { result ≡ is_number view parent }
{
    match parent {
        Some(parent) => parent == view,
        None => false,
    }
}

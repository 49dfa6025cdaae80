ghost use Rattle.std.specs.Prelude.{◌≡◌, ◌+ℤ◌, None, IfNone, IfSome};
ghost use Rattle.be_geom.specs.Places.{IsNear};
ghost use Rattle.be_views.specs.Trees.{place_of};
ghost use Rattle.be_paint.specs.Laying.{descent_of};
ghost use Rattle.be_paint.specs.Seen.{IsPlace, IsOrigin, IsSite};

use be_descent::Way;
use be_geom::Point;
use be_region::Region;
use be_state::StateStack;
use be_views::ViewTree;

/// Where a view may draw.
#[derive(Clone, Copy)]
pub struct Reach<'a> {
    /// The window's left top, in screen coordinates.
    pub window: Point,
    pub tree: &'a ViewTree,
    pub view: u16,
    pub states: &'a StateStack,
    /// The pixels that an open update may draw, in window coordinates. None while no update is
    /// open.
    pub session: Option<&'a Region>,
}

/// Where a view draws.
#[derive(Clone, Copy)]
pub(crate) struct Site {
    /// Where the view's left top is in the window.
    pub view: Way,
    /// Where drawing counts from on the screen.
    pub origin: Way,
}

impl<'a> Reach<'a> {
    /// Where the view draws. None where there is no such view.
    pub(crate) fn site(&self) -> Option<Site>
        ensures none { IfNone result (place_of self.now.tree.now self.now.view ≡ None) }
        ensures some { IfSome result (λ site. IsSite self.now site) }
        ensures near { IfSome result (λ site. IsPlace site.view × IsOrigin site.origin) }
    {
        let (x, y) = self.tree.place_of(self.view)?;
        let (right, down) = self.states.base();
        Some(Site {
            view: Way { right: x, down: y },
            origin: Way {
                right: origin(self.window.x, x, right),
                down: origin(self.window.y, y, down),
            },
        })
    }

    /// Where the view may draw, as a descent asks for it.
    pub(crate) fn descent(&self, site: &Site) -> be_descent::Reach<'a>
        requires { IsPlace site.now.view }
        ensures reach { result ≡ descent_of self.now site.now }
        ensures near { IsNear 64 result.corner.right × IsNear 64 result.corner.down }
    {
        be_descent::Reach {
            window: self.window,
            tree: self.tree,
            view: self.view,
            states: self.states,
            corner: Way {
                right: i32::from(self.window.x) + site.view.right,
                down: i32::from(self.window.y) + site.view.down,
            },
            session: self.session,
        }
    }
}

/// Where drawing counts from, across or down: so far from where the view lies in the window.
fn origin(window: i16, view: i32, base: i32) -> i32
    requires near { IsNear 32 view × IsNear 17 base }
    ensures sum { result ≡ window +ℤ view +ℤ base }
    ensures near { IsNear 60 result }
{
    i32::from(window) + view + base
}

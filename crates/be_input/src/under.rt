ghost use Rattle.std.specs.Prelude.{◌≡◌, ◌-ℤ◌, option_map};
ghost use Rattle.be_geom.specs.Places.{at_pixel};
ghost use Rattle.be_views.specs.Places.{pair_of};
ghost use Rattle.be_input.specs.Deliveries.{place_in};
ghost use Rattle.be_input.specs.Pointing.{corner_of, view_in, view_under, under_pointer};
ghost use Rattle.be_input.specs.Seen.{at_place, place_seen};

use crate::message::Place;
use crate::pointing::Pointing;
use be_geom::Point;
use be_stack::Stack;
use be_views::ViewTree;

/// The window and the view at a pixel of the screen. None on the desktop.
#[tactic(auto, unfolding(crate::specs::Pointing::under_pointer))]
pub(crate) fn under_pointer(stack: &Stack, pointing: &Pointing, p: Point) -> Option<(u16, u16)>
    ensures { result ≡ under_pointer stack.now pointing.now.trees p }
{
    let w = stack.owner_at(i32::from(p.x), i32::from(p.y))?;
    let view = view_under(stack, pointing, w, p)?;
    Some((w, view))
}

/// The view of a window at a pixel of the screen.
#[tactic(auto, unfolding(crate::specs::Pointing::view_under))]
fn view_under(stack: &Stack, pointing: &Pointing, w: u16, p: Point) -> Option<u16>
    ensures { result ≡ view_under stack.now pointing.now.trees w p.x p.y }
{
    let corner = corner_of(stack, w)?;
    let trees = pointing.trees.as_slice();
    view_in(trees, w, less(p.x, corner.x), less(p.y, corner.y))
}

/// The left top of a window on the screen.
fn corner_of(stack: &Stack, w: u16) -> Option<Point>
    ensures { result ≡ corner_of stack.now w }
{
    let frame = stack.frame(w)?;
    Some(Point {
        x: frame.left,
        y: frame.top,
    })
}

fn less(a: i16, b: i16) -> i32
    ensures { result ≡ a -ℤ b }
{
    i32::from(a) - i32::from(b)
}

fn view_in(trees: &[ViewTree], w: u16, x: i32, y: i32) -> Option<u16>
    ensures { result ≡ view_in trees.now w (at_pixel x y) }
{
    trees.get(usize::from(w))?.view_at(x, y)
}

/// A pixel of the screen as it is seen from the left top of a window's view.
pub(crate) fn place_seen(
    stack: &Stack,
    pointing: &Pointing,
    p: Point,
    at: (u16, u16),
) -> Option<Place>
    ensures { option_map at_place result ≡ place_seen stack.now pointing.now.trees p at }
{
    let corner = corner_of(stack, at.0)?;
    let (left, top) = place_in(pointing, at)?;
    Some(Place {
        x: seen_from(p.x, corner.x, left),
        y: seen_from(p.y, corner.y, top),
    })
}

/// The left top of a view within its window.
fn place_in(pointing: &Pointing, at: (u16, u16)) -> Option<(i32, i32)>
    ensures { result ≡ option_map pair_of (place_in pointing.now.trees at) }
{
    pointing.trees.get(usize::from(at.0))?.place_of(at.1)
}

fn seen_from(p: i16, corner: i16, place: i32) -> i64
    ensures { result ≡ p -ℤ corner -ℤ place }
{
    let from_window = less(p, corner);
    i64::from(from_window) - i64::from(place)
}

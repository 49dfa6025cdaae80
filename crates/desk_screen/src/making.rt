ghost use Rattle.std.specs.Prelude.{◌≡◌, ◌<◌, ◌≤ℤ◌, ◌-ℤ◌, pos, length, Some, slice_get, IfOk};
ghost use Rattle.std.specs.Prelude.{IfSome, OnOk};
ghost use Rattle.be_views.specs.Trees.{left_top};
ghost use Rattle.be_views.specs.Whole.{root_view};
ghost use Rattle.desk_screen.specs.Making.{AreMade, IsNewPane};

use crate::declared::{Child, Declared};
use crate::fault::ScreenFault;
use be_color::Color;
use be_geom::{NoMemory, Point, Rect};
use be_pane::Pane;
use be_stack::{Stack, StackFault};
use be_views::ViewTree;
use std::alloc::Global;

/// Hidden windows, with the views and the pane of each.
#[derive(Drop)]
pub(crate) struct Making {
    pub stack: Stack,
    pub trees: Vec<ViewTree>,
    pub panes: Vec<Pane>,
}

impl Making {
    /// Makes one more window.
    pub(crate) fn add(&mut self, alloc: Global, declared: &Declared<'_>) -> Result<(), ScreenFault>
        requires { AreMade self.old.stack self.old.trees.items self.old.panes.items }
        ensures { OnOk result (AreMade self.new.stack self.new.trees.items self.new.panes.items) }
    {
        let Some((width, height)) = size_of(declared.frame) else {
            return Err(ScreenFault::Window(StackFault::BadFrame));
        };
        let w = self.stack.add(declared.frame, declared.flags)?;
        let (tree, colors) = views_of(alloc, width, height, declared.color, declared.children)?;
        let pane = pane_of(alloc, w, declared.frame, tree.copy()?, colors)?;
        self.trees.push(tree)?;
        self.panes.push(pane)?;
        Ok(())
    }
}

/// How far a window's last edges are from its first. None where a view tree can't have the size.
fn size_of(frame: Rect) -> Option<(i16, i16)>
    ensures width { IfSome result (λ size. size.0 ≡ frame.right -ℤ frame.left) }
    ensures height { IfSome result (λ size. size.1 ≡ frame.bottom -ℤ frame.top) }
    ensures across { IfSome result (λ size. pos 0 ≤ℤ size.0) }
    ensures down { IfSome result (λ size. pos 0 ≤ℤ size.1) }
{
    Some((
        length_of(frame.left, frame.right)?,
        length_of(frame.top, frame.bottom)?,
    ))
}

fn length_of(first: i16, last: i16) -> Option<i16>
    ensures length { IfSome result (λ size. size ≡ last -ℤ first) }
    ensures some { IfSome result (λ size. pos 0 ≤ℤ size) }
{
    if last < first {
        return None;
    }
    i16::try_from(i32::from(last) - i32::from(first)).ok()
}

/// The views of a window, and for each its colour.
fn views_of(
    alloc: Global,
    width: i16,
    height: i16,
    color: Color,
    children: &[Child],
) -> Result<(ViewTree, Vec<Color>), ScreenFault>
    requires across { pos 0 ≤ℤ width }
    requires down { pos 0 ≤ℤ height }
    ensures root { IfOk result (λ views. slice_get views.0 0 ≡ Some (root_view width height)) }
    ensures colored { IfOk result (λ views. length views.1.items ≡ length views.0) }
{
    let mut tree = ViewTree::new(alloc, width, height)?;
    let mut colors = Vec::new(alloc);
    colors.push(color)?;
    for child in children {
        let _view = tree.add(child.parent, child.frame, child.follow)?;
        colors.push(child.color)?;
    }
    Ok((tree, colors))
}

/// The pane of a window that owns no pixel.
fn pane_of(
    alloc: Global,
    w: u16,
    frame: Rect,
    tree: ViewTree,
    colors: Vec<Color>,
) -> Result<Pane, NoMemory>
    requires { length colors.items ≡ length tree }
    ensures { IfOk result (IsNewPane w (left_top frame) tree) }
{
    let mut pane = Pane::new(alloc, w, tree, colors)?;
    pane.place = Point {
        x: frame.left,
        y: frame.top,
    };
    Ok(pane)
}

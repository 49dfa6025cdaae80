ghost use Rattle.be_geom.specs.Rects.{rect_has};
ghost use Rattle.std.specs.Prelude.{◌≡◌, ◌<◌, ◌≤◌, ◌↔◌, ◌⊎◌, ℕ, true, pos, ◌-ℤ◌, ◌≤ℤ◌, ◌∷◌, []};
ghost use Rattle.std.specs.Prelude.{length, slice_get, option_map, option_and_then, vec_len};
ghost use Rattle.std.specs.Prelude.{vec_capacity, IfOk, IfSome, OnOk, OnErr, IsNone, IsErr};
ghost use Rattle.be_views.specs.Trees.{parent_of, place_of, place_from};
ghost use Rattle.be_views.specs.Pixels.{view_at, view_below};
ghost use Rattle.be_region.specs.Runs.{IsRun};
ghost use Rattle.be_views.specs.Clips.{IsClip};
ghost use Rattle.be_views.specs.Resizing.{resized};
ghost use Rattle.be_views.specs.Whole.{IsTree, root_view, with_view, depth_from, depth_of};
ghost use Rattle.be_views.specs.Places.{pair_of};
ghost use Rattle.be_geom.specs.Places.{IsNear};

use crate::children::{has_pixel, last_child_at, within};
use crate::clip::clip_of;
use crate::fault::{ClipFault, ViewFault};
use crate::resize::{MAX_VIEWS, frames_after, root_frame, set_frames};
use crate::run::{frame_gap_end, run_below};
use crate::view::View;
use be_follow::{Across, Down, Follow};
use be_geom::{NoMemory, OutOfRange, Rect};
use be_region::Region;
use std::alloc::Global;
use std::marker::Model;

/// Where no column follows.
const LAST: i32 = 2147483647;

/// How deep a view may be, where the root is at depth 1.
const MAX_DEPTH: usize = 8;

/// The views of a window, by their numbers: view 0 is the root, and a parent's number is below
/// those of its children.
#[derive(Debug, Drop)]
pub struct ViewTree {
    views: Vec<View>,
}

impl Model for ViewTree {
    ghost use Rattle.be_views.specs.Trees.{Tree};
    ghost use Rattle.be_region.specs.Runs.{IsRun};
    ghost use Rattle.be_views.specs.Clips.{IsClip};
    ghost use Rattle.be_views.specs.Resizing.{resized};
    ghost use Rattle.be_views.specs.Whole.{IsTree};

    ghost Value = { Tree };

    ghost view = { λ t. t.views.items };

    ghost invariant = { λ t. IsTree t.views.items };
}

impl ViewTree {
    /// The root alone, of a window whose right edge less the left one is `width` and whose bottom
    /// edge less the top one is `height`.
    pub fn new(alloc: Global, width: i16, height: i16) -> Result<ViewTree, NoMemory>
        requires across { pos 0 ≤ℤ width }
        requires down { pos 0 ≤ℤ height }
        ensures { IfOk result (λ tree. tree ≡ root_view width height ∷ []) }
    {
        let mut views = Vec::new(alloc);
        views.push(root(width, height))?;
        Ok(ViewTree { views })
    }

    /// Adds a view in front of its siblings, and gives its number: `BView::AddChild`. The frame is
    /// in the parent's coordinates.
    pub fn add(&mut self, parent: u16, frame: Rect, mode: Follow) -> Result<u16, ViewFault>
        ensures no_view { (result ≡ Err ViewFault.NoView) ↔ (length self.old ≤ parent) }
        ensures too_deep { (result ≡ Err ViewFault.TooDeep)
            ↔ ((parent < length self.old) × (8 ≤ depth_of self.old parent)) }
        ensures too_many { (result ≡ Err ViewFault.TooMany)
            ↔ ((parent < length self.old) × (depth_of self.old parent < 8)
            × (length self.old ≡ 32)) }
        ensures number { IfOk result (λ view. view ≡ length self.old) }
        ensures added { IfOk result (λ view. self.new ≡ with_view self.old parent frame mode) }
        ensures err { OnErr result (self.new ≡ self.old) }
    {
        let count = self.views.len();
        if usize::from(parent) >= count {
            return Err(ViewFault::NoView);
        }
        if depth_of(&self.views, parent) >= MAX_DEPTH {
            return Err(ViewFault::TooDeep);
        }
        if count >= MAX_VIEWS {
            return Err(ViewFault::TooMany);
        }
        make_room(&mut self.views)?;
        self.views
            .push(View {
                parent: Some(parent),
                frame,
                mode,
            })
            .unwrap();
        Ok(count as u16)
    }

    /// How many views there are, the root among them.
    pub fn len(&self) -> usize
        ensures number { result ≡ length self.now }

        // What holds of every tree, for callers that rest on it.
        ensures whole { IsTree self.now }
    {
        self.views.len()
    }

    /// A view's frame: `BView::Frame`. None where there is no such view.
    pub fn frame_of(&self, view: u16) -> Option<Rect>
        ensures none { IsNone result ↔ (length self.now ≤ view) }
        ensures frame { result ≡ option_map (λ v. v.frame) (slice_get self.now view) }
    {
        self.views.get(usize::from(view)).map(|view| view.frame)
    }

    /// How a view's frame goes with its parent's size: `BView::ResizingMode`. None where there is
    /// no such view.
    pub fn mode_of(&self, view: u16) -> Option<Follow>
        ensures none { IsNone result ↔ (length self.now ≤ view) }
        ensures mode { result ≡ option_map (λ v. v.mode) (slice_get self.now view) }
    {
        self.views.get(usize::from(view)).map(|view| view.mode)
    }

    /// The view in which a view lies: `BView::Parent`. None for the root, and where there is no
    /// such view.
    pub fn parent(&self, view: u16) -> Option<u16>
        ensures none { IsNone result ↔ ((view ≡ 0) ⊎ (length self.now ≤ view)) }
        ensures parent { result ≡ parent_of self.now view }
        ensures below { IfSome result (λ parent. parent < view) }
    {
        parent_of(&self.views, view)
    }

    /// A view's left top within the window: `BView::ConvertToParent` up to the window. None where
    /// there is no such view.
    pub fn place_of(&self, view: u16) -> Option<(i32, i32)>
        ensures none { IsNone result ↔ (length self.now ≤ view) }
        ensures place { result ≡ option_map pair_of (place_of self.now view) }
        ensures across { IfSome result (λ place. IsNear 32 place.0) }
        ensures down { IfSome result (λ place. IsNear 32 place.1) }
    {
        place_from(self.views.len(), &self.views, view)
    }

    /// The view at a pixel of the window. None outside the root.
    pub fn view_at(&self, x: i32, y: i32) -> Option<u16>
        ensures { result ≡ view_at self.now x y }
    {
        let root = self.views.first()?;
        if has_pixel(root.frame, x, y) {
            Some(view_below(&self.views, x, y))
        } else {
            None
        }
    }

    /// The view at a pixel of the window, and the last column up to which that stays so along the
    /// row.
    pub fn run_at(&self, x: i32, y: i32) -> (Option<u16>, i32)
        ensures answer { result.0 ≡ view_at self.now x y }
        ensures run { IsRun (λ z. view_at self.now z y) x result.1 }
    {
        let root = self.views[0].frame;
        if has_pixel(root, x, y) {
            let end = i32::from(root.right);
            let (view, last) = run_below(self.views.len(), &self.views, 0, (x, y), end);
            (Some(view), last)
        } else {
            (None, frame_gap_end(root, (x, y), LAST))
        }
    }

    /// The pixels of the window at which a view's drawing shows: its frame within those round it,
    /// without its children and what is in front. `BView::GetClippingRegion`, in the window's
    /// coordinates.
    pub fn clip_of(&self, view: u16) -> Result<Region, ClipFault>
        ensures no_view { (result ≡ Err ClipFault.NoView) ↔ (length self.now ≤ view) }
        ensures clip { IfOk result (IsClip self.now view) }
    {
        if usize::from(view) >= self.views.len() {
            return Err(ClipFault::NoView);
        }
        let alloc = *self.views.allocator();
        Ok(clip_of(alloc, &self.views, view)?)
    }

    /// The views after their window's resize, which gives the size as `new` takes it: the frame of
    /// each view but the root follows its parent's.
    pub fn resize(&mut self, width: i16, height: i16) -> Result<(), OutOfRange>
        requires across { pos 0 ≤ℤ width }
        requires down { pos 0 ≤ℤ height }
        ensures resized { OnOk result (resized self.old width height ≡ Some self.new) }
        ensures out { IsErr result ↔ (resized self.old width height ≡ None) }
        ensures err { OnErr result (self.new ≡ self.old) }
    {
        let frames = frames_after(&self.views, width, height)?;
        set_frames(&mut self.views, &frames);
        Ok(())
    }

    /// A tree of these views, on the same allocator.
    pub fn copy(&self) -> Result<ViewTree, NoMemory>
        ensures { IfOk result (λ tree. tree ≡ self.now) }
    {
        let alloc = *self.views.allocator();
        Ok(ViewTree {
            views: Vec::from_slice(alloc, &self.views)?,
        })
    }
}

fn root(width: i16, height: i16) -> View
    ensures { result ≡ root_view width height }
{
    View {
        parent: None,
        frame: root_frame(width, height),
        mode: Follow {
            across: Across::Left,
            down: Down::Top,
        },
    }
}

/// Makes room for one more view.
fn make_room(views: &mut Vec<View>) -> Result<(), NoMemory>
    ensures same { views.new.items ≡ views.old.items }
    ensures room { OnOk result (vec_len views.new < vec_capacity views.new) }
{
    views.reserve(1)?;
    Ok(())
}

/// The view in which a view lies.
fn parent_of(views: &[View], v: u16) -> Option<u16>
    ensures { result ≡ parent_of views.now v }
{
    views.get(usize::from(v))?.parent
}

/// A view's left top within the window, in so many steps at most.
fn place_from(steps: usize, views: &[View], v: u16) -> Option<(i32, i32)>
    requires { steps ≤ 32 }
    ensures place { result ≡ option_map pair_of (place_from steps views.now v) }
    ensures across { IfSome result (λ place. IsNear steps place.0) }
    ensures down { IfSome result (λ place. IsNear steps place.1) }
{
    if steps == 0 {
        return None;
    }
    let view = views.get(usize::from(v))?;
    let left = i32::from(view.frame.left);
    let top = i32::from(view.frame.top);
    match view.parent {
        Some(parent) => {
            let place = place_from(steps - 1, views, parent)?;
            Some((left + place.0, top + place.1))
        }
        None => Some((left, top)),
    }
}

/// How deep a view is.
fn depth_of(views: &[View], v: u16) -> usize
    ensures { result ≡ depth_of views.now v }
{
    depth_from(views.len(), views, v)
}

/// How deep a view is, in so many steps at most.
fn depth_from(steps: usize, views: &[View], v: u16) -> usize
    ensures depth { result ≡ depth_from steps views.now v }
    ensures bound { result ≤ steps }
{
    if steps == 0 {
        return 0;
    }
    match views.get(usize::from(v)) {
        Some(view) => match view.parent {
            Some(parent) => depth_from(steps - 1, views, parent) + 1,
            None => 1,
        },
        None => 0,
    }
}

/// From the root to its last child that holds the pixel, again and again.
fn view_below(views: &[View], x: i32, y: i32) -> u16
    requires few { length views.now ≤ 32 }
    ensures { result ≡ view_below (length views.now) views.now 0 x y }
{
    let mut view = 0u16;
    let mut place = (x, y);
    for _step in 0..views.len() {
        match last_child_at(views, view, place.0, place.1) {
            Some((child, frame)) => {
                view = child as u16;
                place = within(place, frame);
            }
            None => return view,
        }
    }
    view
}

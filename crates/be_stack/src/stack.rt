ghost use Rattle.std.specs.Prelude.{◌≡◌, ◌<◌, ◌≤◌, ◌↔◌, true, false, length, find, slice_get};
ghost use Rattle.std.specs.Prelude.{option_map, vec_len, vec_capacity, IsTrue, IsNone, IfOk, OnOk};
ghost use Rattle.std.specs.Prelude.{OnErr, MatchResult};
ghost use Rattle.be_stack.specs.Windows.{is_open, is_shown, is_shown_window, empty_windows};
ghost use Rattle.be_stack.specs.Windows.{is_window_frame, with_new_window, with_window};
ghost use Rattle.be_stack.specs.Owner.{is_on_screen, covers, owner_at};
ghost use Rattle.be_stack.specs.Visible.{IsVisible};
ghost use Rattle.be_stack.specs.Limits.{is_within_limits, is_named_there};
ghost use Rattle.be_stack.specs.Changes.{is_gone, windows_after, changed, active_without, hidden};
ghost use Rattle.be_stack.specs.Changes.{activated, sent_behind, closed};
ghost use Rattle.be_stack.specs.Whole.{IsWhole};

use crate::fault::{ChangeFault, StackFault};
use crate::flags::WindowFlags;
use crate::frame::{is_window_frame, moved_by, moved_to, resized_to};
use crate::order::{go_behind, go_to_front, leave, place_of};
use crate::visible::{on_screen, shown_frame, uncover};
use crate::window::Window;
use be_geom::{Change, NoMemory, Rect};
use be_region::Region;
use std::alloc::Global;
use std::marker::Model;

/// How many windows a screen may have, closed ones among them.
const MAX_WINDOWS: usize = 32;

/// The windows of a screen. A window's number is the count of those that were added before it.
#[derive(Debug, Drop)]
pub struct Stack {
    width: u16,
    height: u16,
    /// The windows that aren't closed, from front to back.
    order: Vec<u16>,
    windows: Vec<Window>,
    active: Option<u16>,
}

impl Model for Stack {
    ghost use Rattle.be_stack.specs.Windows.{Windows};
    ghost use Rattle.be_stack.specs.Whole.{IsWhole};

    ghost Value = { Windows };

    ghost view = { λ s. record {
      width = s.width;
      height = s.height;
      order = s.order.items;
      windows = s.windows.items;
      active = s.active;
    } };

    ghost invariant = { λ s. IsWhole record {
      width = s.width;
      height = s.height;
      order = s.order.items;
      windows = s.windows.items;
      active = s.active;
    } };
}

impl Stack {
    /// A screen of so many columns and rows, without windows.
    pub fn new(alloc: Global, width: u16, height: u16) -> Stack
        ensures { result ≡ empty_windows width height }
    {
        Stack {
            width,
            height,
            order: Vec::new(alloc),
            windows: Vec::new(alloc),
            active: None,
        }
    }

    /// Makes a window in front of the others, hidden once, and gives its number: the constructor of
    /// `BWindow`. The frame is in screen coordinates.
    pub fn add(&mut self, frame: Rect, flags: WindowFlags) -> Result<u16, StackFault>
        ensures bad_frame { (result ≡ Err StackFault.BadFrame) ↔ (is_window_frame frame ≡ false) }
        ensures too_many { (result ≡ Err StackFault.TooMany)
            ↔ ((is_window_frame frame ≡ true) × (length self.old.windows ≡ 32)) }
        ensures number { IfOk result (λ w. w ≡ length self.old.windows) }
        ensures added { IfOk result (λ w. self.new ≡ with_new_window self.old w frame flags) }
        ensures err { OnErr result (self.new ≡ self.old) }
    {
        if !is_window_frame(frame) {
            return Err(StackFault::BadFrame);
        }
        if self.windows.len() >= MAX_WINDOWS {
            return Err(StackFault::TooMany);
        }
        make_room(&mut self.order, &mut self.windows)?;
        let w = self.windows.len() as u16;
        self.windows
            .push(Window {
                frame,
                hides: 1,
                flags,
                closed: false,
            })
            .unwrap();
        self.order.insert(0, w).unwrap();
        Ok(w)
    }

    /// How many windows there are, closed ones among them.
    pub fn len(&self) -> usize
        ensures number { result ≡ length self.now.windows }

        // No stack has more, for callers that rest on it.
        ensures few { result ≤ 32 }
    {
        self.windows.len()
    }

    /// A window's frame, in screen coordinates, closed or not: `BWindow::Frame`. None where there
    /// is no such window.
    pub fn frame(&self, w: u16) -> Option<Rect>
        ensures none { IsNone result ↔ (length self.now.windows ≤ w) }
        ensures frame { result ≡ option_map (λ window. window.frame)
            (slice_get self.now.windows w) }
    {
        self.windows.get(usize::from(w)).map(|window| window.frame)
    }

    /// A window's flags, closed or not: `BWindow::Flags`. None where there is no such window.
    pub fn flags(&self, w: u16) -> Option<WindowFlags>
        ensures none { IsNone result ↔ (length self.now.windows ≤ w) }
        ensures flags { result ≡ option_map (λ window. window.flags)
            (slice_get self.now.windows w) }
    {
        self.windows.get(usize::from(w)).map(|window| window.flags)
    }

    /// Whether there is such a window, and it is neither closed nor hidden: the opposite of
    /// `BWindow::IsHidden`.
    pub fn is_shown(&self, w: u16) -> bool
        ensures { result ≡ is_shown self.now.windows w }
    {
        match self.windows.get(usize::from(w)) {
            Some(window) => window.is_shown(),
            None => false,
        }
    }

    /// The active window, for which `BWindow::IsActive` holds.
    pub fn active(&self) -> Option<u16>
        ensures active { result ≡ self.now.active }

        // What holds of every stack, for callers that rest on it: an active window is shown, for
        // one.
        ensures whole { IsWhole self.now }
    {
        self.active
    }

    /// The window that a pixel of the screen belongs to. None for the desktop, and off the screen.
    pub fn owner_at(&self, x: i32, y: i32) -> Option<u16>
        ensures { result ≡ owner_at self.now x y }
    {
        if !is_on_screen(self.width, x) || !is_on_screen(self.height, y) {
            return None;
        }
        first_cover(&self.order, &self.windows, x, y)
    }

    /// The pixels of the screen that belong to a window, in screen coordinates: none where it isn't
    /// shown, or where there is no such window.
    pub fn visible(&self, w: u16) -> Result<Region, NoMemory>
        ensures { IfOk result (λ region. IsVisible region self.now w) }
    {
        let alloc = *self.order.allocator();
        let Some(place) = place_of(&self.order, w) else {
            return Ok(Region::empty(alloc));
        };
        let Some(frame) = shown_frame(&self.windows, w) else {
            return Ok(Region::empty(alloc));
        };
        let mut region = Region::from_rect(alloc, on_screen(frame, self.width, self.height))?;
        uncover(alloc, &mut region, &self.windows, &self.order[..place])?;
        Ok(region)
    }

    /// A stack of these windows, on the same allocator.
    pub fn copy(&self) -> Result<Stack, NoMemory>
        ensures { IfOk result (λ stack. stack ≡ self.now) }
    {
        let alloc = *self.order.allocator();
        Ok(Stack {
            width: self.width,
            height: self.height,
            order: Vec::from_slice(alloc, &self.order)?,
            windows: Vec::from_slice(alloc, &self.windows)?,
            active: self.active,
        })
    }

    /// Changes a window: the calls of `BWindow` that `Change` names. It takes no memory.
    pub fn apply(&mut self, w: u16, change: &Change) -> Result<(), ChangeFault>
        requires there { w < length self.old.windows }
        requires named_there { IsTrue (is_named_there self.old change.now) }
        requires within_limits { IsTrue (is_within_limits change.now) }
        ensures changed { MatchResult result
            (λ _. windows_after self.old w change.now ≡ Ok self.new)
            (λ fault. windows_after self.old w change.now ≡ Err fault) }
        ensures refused { OnErr result (self.new ≡ self.old) }
    {
        if self.is_gone(w, *change) {
            return Err(ChangeFault::Gone);
        }
        let window = self.windows[usize::from(w)];
        self.change(w, window, *change)
    }

    /// Whether a window is closed that the change is asked of, or asked to go behind.
    fn is_gone(&self, w: u16, change: Change) -> bool
        ensures { result ≡ is_gone self.now.windows w change }
    {
        match change {
            Change::Behind(front) => !self.is_open(w) || !self.is_open(front),
            Change::Show
            | Change::Hide
            | Change::MoveTo(_)
            | Change::MoveBy(_, _)
            | Change::ResizeTo(_, _)
            | Change::Activate
            | Change::Focus(_)
            | Change::Close => !self.is_open(w),
        }
    }

    fn is_open(&self, w: u16) -> bool
        ensures { result ≡ is_open self.now.windows w }
    {
        match self.windows.get(usize::from(w)) {
            Some(window) => !window.closed,
            None => false,
        }
    }

    /// Changes a window that isn't gone.
    fn change(&mut self, w: u16, window: Window, change: Change) -> Result<(), ChangeFault>
        requires there { slice_get self.old.windows w ≡ Some window }
        requires opened { is_gone self.old.windows w change ≡ false }
        ensures changed { MatchResult result (λ _. changed self.old w window change ≡ Ok self.new)
            (λ fault. changed self.old w window change ≡ Err fault) }
        ensures refused { OnErr result (self.new ≡ self.old) }
    {
        match change {
            Change::Show => self.put(w, window.with_hides(window.hides.saturating_sub(1))),
            Change::Hide => self.hide(w, window),
            Change::MoveTo(corner) => {
                self.put(w, window.with_frame(moved_to(window.frame, corner)?))
            }
            Change::MoveBy(dx, dy) => {
                self.put(w, window.with_frame(moved_by(window.frame, dx, dy)?))
            }
            Change::ResizeTo(width, height) => {
                self.put(
                    w,
                    window.with_frame(resized_to(window.frame, width, height)?),
                )
            }
            Change::Activate => self.activate(w, window),
            Change::Behind(front) => self.send_behind(w, front),
            Change::Focus(_) => {}
            Change::Close => self.close(w, window),
        }
        Ok(())
    }

    /// Keeps something else of a window, which stays open, and stays shown if it is.
    fn put(&mut self, w: u16, window: Window)
        requires opened { is_open self.old.windows w ≡ true }
        requires stays { window.closed ≡ false }
        requires shown { is_shown self.old.windows w ≡ true → is_shown_window window ≡ true }
        ensures { self.new ≡ with_window self.old w window }
    {
        self.windows[usize::from(w)] = window;
    }

    fn hide(&mut self, w: u16, window: Window)
        requires opened { is_open self.old.windows w ≡ true }
        requires stays { window.closed ≡ false }
        ensures { self.new ≡ hidden self.old w window }
    {
        let hides = window.hides.saturating_add(1);
        self.windows[usize::from(w)] = window.with_hides(hides);
        self.active = active_without(self.active, w);
    }

    fn activate(&mut self, w: u16, window: Window)
        requires there { slice_get self.old.windows w ≡ Some window }
        requires opened { is_open self.old.windows w ≡ true }
        ensures { self.new ≡ activated self.old w window }
    {
        go_to_front(&mut self.order, w);
        if window.takes_focus() {
            self.active = Some(w);
        }
    }

    fn send_behind(&mut self, w: u16, front: u16)
        requires { is_open self.old.windows w ≡ true }
        ensures { self.new ≡ sent_behind self.old w front }
    {
        if w != front {
            go_behind(&mut self.order, w, front);
        }
    }

    fn close(&mut self, w: u16, window: Window)
        requires { is_open self.old.windows w ≡ true }
        ensures { self.new ≡ closed self.old w window }
    {
        leave(&mut self.order, w);
        self.windows[usize::from(w)] = Window {
            closed: true,
            ..window
        };
        self.active = active_without(self.active, w);
    }
}

/// The active window, unless it is the one that is hidden or closed.
fn active_without(active: Option<u16>, w: u16) -> Option<u16>
    ensures { result ≡ active_without w active }
{
    if active == Some(w) { None } else { active }
}

/// Makes room for one more window.
fn make_room(order: &mut Vec<u16>, windows: &mut Vec<Window>) -> Result<(), NoMemory>
    ensures order { order.new.items ≡ order.old.items }
    ensures windows { windows.new.items ≡ windows.old.items }
    ensures order_room { OnOk result (vec_len order.new < vec_capacity order.new) }
    ensures windows_room { OnOk result (vec_len windows.new < vec_capacity windows.new) }
{
    order.reserve(1)?;
    windows.reserve(1)?;
    Ok(())
}

/// Whether a column or a row is on a screen with so many of them.
fn is_on_screen(size: u16, z: i32) -> bool
    ensures { result ≡ is_on_screen size z }
{
    0 <= z && z < i32::from(size)
}

/// The first window of an order that is shown and whose frame holds the pixel.
fn first_cover(order: &[u16], windows: &[Window], x: i32, y: i32) -> Option<u16>
    ensures { result ≡ find (covers windows.now x y) order.now }
{
    order.iter().copied().find(|w| covers(windows, *w, x, y))
}

/// Whether a window is shown and its frame holds the pixel.
fn covers(windows: &[Window], w: u16, x: i32, y: i32) -> bool
    ensures { result ≡ covers windows.now x y w }
{
    match windows.get(usize::from(w)) {
        Some(window) => window.covers_pixel(x, y),
        None => false,
    }
}

#[cfg(test)]
mod tests;

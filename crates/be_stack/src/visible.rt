ghost use Rattle.std.specs.Prelude.{◌≡◌, ℤ, pos, ◌&&◌, not, false, int_le, int_lt, OnOk};
ghost use Rattle.std.specs.Prelude.{MatchOption};
ghost use Rattle.std.specs.List.{list_any};
ghost use Rattle.be_geom.specs.Rects.{rect_has};
ghost use Rattle.be_region.specs.Regions.{region_has};
ghost use Rattle.be_stack.specs.Owner.{is_on_screen, covers};

use crate::window::Window;
use be_geom::{NoMemory, Rect};
use be_region::Region;
use std::alloc::Global;

/// The frame of a window that is shown.
pub(crate) fn shown_frame(windows: &[Window], w: u16) -> Option<Rect>
    ensures { MatchOption result ((x y : ℤ) → covers windows.now x y w ≡ false)
        (λ frame. (x y : ℤ) → covers windows.now x y w ≡ rect_has frame x y) }
{
    match windows.get(usize::from(w)) {
        Some(window) if window.is_shown() => Some(window.frame),
        _ => None,
    }
}

/// The part of a frame that is on a screen of so many columns and rows.
pub(crate) fn on_screen(frame: Rect, width: u16, height: u16) -> Rect
    ensures { (x y : ℤ) → rect_has result x y
        ≡ (is_on_screen width x && is_on_screen height y && rect_has frame x y) }
{
    Rect {
        left: first_on_screen(frame.left),
        top: first_on_screen(frame.top),
        right: last_on_screen(frame.right, width),
        bottom: last_on_screen(frame.bottom, height),
    }
}

fn first_on_screen(first: i16) -> i16
    ensures { (z : ℤ) → int_le result z ≡ (int_le (pos 0) z && int_le first z) }
{
    first.max(0)
}

fn last_on_screen(last: i16, size: u16) -> i16
    ensures { (z : ℤ) → int_le z result ≡ (int_lt z (pos size) && int_le z last) }
{
    if i32::from(last) < i32::from(size) {
        last
    } else {
        (i32::from(size) - 1) as i16
    }
}

/// Takes off what other windows cover.
pub(crate) fn uncover(
    alloc: Global,
    region: &mut Region,
    windows: &[Window],
    others: &[u16],
) -> Result<(), NoMemory>
    ensures { OnOk result ((x y : ℤ) → region_has region.new x y
        ≡ (region_has region.old x y && not (list_any (covers windows.now x y) others.now))) }
{
    for w in others {
        if let Some(frame) = shown_frame(windows, *w) {
            region.exclude(&Region::from_rect(alloc, frame)?)?;
        }
    }
    Ok(())
}

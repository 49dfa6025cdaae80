use crate::fault::Hindrance;
use crate::windows::{Layout, shown};
use be_geom::Change;
use desk_screen::Screen;
use std::alloc::Global;

/// What is done to a window in a round.
#[derive(Clone, Copy, Debug, PartialEq, Eq)]
pub enum Kind {
    /// It is hidden and shown.
    Show,
    /// It comes to the front.
    Front,
    /// It goes a pixel right and down, and back.
    Move,
    /// It gets a pixel wider and higher, and loses it.
    Size,
    /// The first one alone is hidden and shown, and no other window lies over or under it.
    Apart,
    /// The last one alone, a small one in front of all others, goes over them in steps of a few
    /// pixels, and back.
    Drag,
}

fn layout_of(kind: Kind) -> Layout {
    match kind {
        Kind::Show | Kind::Front | Kind::Move | Kind::Size => Layout::Stairs,
        Kind::Apart => Layout::Aside,
        Kind::Drag => Layout::Over,
    }
}

fn changes_of(kind: Kind) -> &'static [Change] {
    match kind {
        Kind::Show | Kind::Apart => &[Change::Hide, Change::Show],
        Kind::Front => &[Change::Activate],
        Kind::Move => &[Change::MoveBy(1, 1), Change::MoveBy(-1, -1)],
        Kind::Size => &[Change::ResizeTo(320, 240), Change::ResizeTo(319, 239)],
        Kind::Drag => &[Change::MoveBy(4, 3), Change::MoveBy(-4, -3)],
    }
}

/// How often each change is made before the next.
fn times_of(kind: Kind) -> u8 {
    match kind {
        Kind::Show | Kind::Front | Kind::Move | Kind::Size | Kind::Apart => 1,
        Kind::Drag => 200,
    }
}

/// The first of the windows that are changed, and the one behind the last.
fn changed(kind: Kind, windows: u8) -> (u8, u8) {
    match kind {
        Kind::Show | Kind::Front | Kind::Move | Kind::Size => (0, windows),
        Kind::Apart => (0, windows.min(1)),
        Kind::Drag => (windows.saturating_sub(1), windows),
    }
}

/// Goes round the windows so often, and gives how many changes were made, and the screen then.
pub fn rounds(
    alloc: Global,
    kind: Kind,
    windows: u8,
    count: u32,
) -> Result<(u64, Screen), Hindrance> {
    let mut screen = shown(alloc, layout_of(kind), windows)?;
    let (first, end) = changed(kind, windows);
    let mut made = 0u64;
    for _round in 0..count {
        for w in first..end {
            for change in changes_of(kind) {
                for _time in 0..times_of(kind) {
                    screen.change(alloc, u16::from(w), change)?;
                    made = made.saturating_add(1);
                }
            }
        }
    }
    Ok((made, screen))
}

use crate::picture::{BLUE, RED, rect, shown, window};
use be_color::Color;
use be_geom::{Change, Rect};
use desk_screen::{Refusal, Screen};
use std::alloc::Global;
use std::test::Fail;

/// Two windows that are shown, the second in front.
fn both_shown(alloc: Global, width: u16, a: Rect, b: Rect) -> Result<Screen, Fail> {
    let windows = [window(a, Color::Solid(RED)), window(b, Color::Solid(BLUE))];
    shown(alloc, width, 8, &windows)
}

/// Two windows with a pixel in common.
fn overlapping(alloc: Global) -> Result<Screen, Fail> {
    both_shown(alloc, 3, rect(0, 0, 1, 0), rect(1, 0, 2, 0))
}

#[test]
fn names_those_that_win_or_lose_pixels(rt: HostRuntime) -> Result<(), Fail> {
    for (w, change, names) in [
        (1, Change::Hide, [0u16, 1].as_slice()),
        (0, Change::Activate, [0, 1].as_slice()),
        (1, Change::Behind(0), [0, 1].as_slice()),
        (1, Change::Close, [0, 1].as_slice()),
        (1, Change::MoveBy(1, 0), [0, 1].as_slice()),
        (1, Change::Activate, [1].as_slice()),
        (0, Change::Hide, [0].as_slice()),
        (0, Change::Close, [0].as_slice()),
        (0, Change::MoveBy(1, 0), [0].as_slice()),
        (0, Change::ResizeTo(2, 0), [0].as_slice()),
        (1, Change::Focus(None), [1].as_slice()),
    ] {
        let screen = overlapping(rt.alloc())?;
        let named = screen.affected(rt.alloc(), w, &change)?;
        assert_eq!(rt; named.as_slice(), names, "{w} {change:?}");
    }
    Ok(())
}

#[test]
fn a_window_behind_is_shown_alone(rt: HostRuntime) -> Result<(), Fail> {
    let mut screen = overlapping(rt.alloc())?;
    screen.change(rt.alloc(), 0, &Change::Hide)?;
    let named = screen.affected(rt.alloc(), 0, &Change::Show)?;
    assert_eq!(rt; named.as_slice(), [0u16].as_slice());
    Ok(())
}

#[test]
fn a_window_apart_is_not_named(rt: HostRuntime) -> Result<(), Fail> {
    let screen = both_shown(rt.alloc(), 64, rect(0, 0, 7, 7), rect(32, 0, 39, 7))?;
    let named = screen.affected(rt.alloc(), 0, &Change::MoveBy(1, 0))?;
    assert_eq!(rt; named.as_slice(), [0u16].as_slice());
    Ok(())
}

#[test]
fn nothing_is_asked_of_no_window(rt: HostRuntime) -> Result<(), Fail> {
    let mut screen = overlapping(rt.alloc())?;
    for (w, change) in [
        (2, Change::Show),
        (65535, Change::Close),
        (0, Change::Behind(2)),
        (0, Change::MoveBy(65536, 0)),
        (0, Change::MoveBy(0, -65536)),
        (0, Change::ResizeTo(-1, 0)),
        (0, Change::ResizeTo(0, -32768)),
    ] {
        let outcome = screen.change(rt.alloc(), w, &change);
        assert_eq!(rt; outcome, Err(Refusal::Unasked), "{w} {change:?}");
        let named = screen.affected(rt.alloc(), w, &change);
        assert!(rt; named.is_err());
    }
    Ok(())
}

use super::*;
use be_geom::Point;
use bitflags::Flags;
use std::process::Abort;
use std::test::Fail;

const WHOLE: Rect = Rect {
    left: 0,
    top: 0,
    right: 3,
    bottom: 2,
};

const CORNER: Rect = Rect {
    left: 2,
    top: 1,
    right: 5,
    bottom: 4,
};

const PIXEL: Rect = Rect {
    left: 1,
    top: 1,
    right: 1,
    bottom: 1,
};

/// Applies a change of which the test is to know that it may be asked.
fn applied(rt: &impl Abort, stack: &mut Stack, w: u16, change: Change) -> Result<(), ChangeFault> {
    assert!(rt; stack.frame(w).is_some());
    match change {
        Change::Behind(front) => {
            assert!(rt; stack.frame(front).is_some());
            stack.apply(w, &Change::Behind(front))
        }
        Change::MoveBy(dx, dy) => {
            assert!(rt; -65535 <= dx);
            assert!(rt; dx <= 65535);
            assert!(rt; -65535 <= dy);
            assert!(rt; dy <= 65535);
            stack.apply(w, &Change::MoveBy(dx, dy))
        }
        Change::ResizeTo(width, height) => {
            assert!(rt; 0 <= width);
            assert!(rt; 0 <= height);
            stack.apply(w, &Change::ResizeTo(width, height))
        }
        _ => stack.apply(w, &change),
    }
}

/// Three windows, of which the first accepts a first click and the second avoids the focus.
fn three(alloc: Global) -> Result<Stack, StackFault> {
    let mut stack = Stack::new(alloc, 4, 3);
    stack.add(WHOLE, WindowFlags::FIRST_CLICK)?;
    stack.add(CORNER, WindowFlags::AVOID_FOCUS)?;
    stack.add(PIXEL, WindowFlags::empty())?;
    Ok(stack)
}

const GONE: Result<(), ChangeFault> = Err(ChangeFault::Gone);

/// A change of a window, its answer, and then the order, the active window, and whether the changed
/// one is shown.
const CHANGES: [(
    u16,
    Change,
    Result<(), ChangeFault>,
    &[u16],
    Option<u16>,
    bool,
); 25] = [
    (0, Change::Hide, Ok(()), &[2, 1, 0], None, false),
    (0, Change::Show, Ok(()), &[2, 1, 0], None, false),
    (0, Change::Show, Ok(()), &[2, 1, 0], None, true),
    (0, Change::Show, Ok(()), &[2, 1, 0], None, true),
    (1, Change::Activate, Ok(()), &[1, 2, 0], None, false),
    (0, Change::Activate, Ok(()), &[0, 1, 2], Some(0), true),
    (2, Change::Activate, Ok(()), &[2, 0, 1], Some(0), false),
    (1, Change::Show, Ok(()), &[2, 0, 1], Some(0), true),
    (1, Change::Activate, Ok(()), &[1, 2, 0], Some(0), true),
    (1, Change::Behind(1), Ok(()), &[1, 2, 0], Some(0), true),
    (1, Change::Behind(0), Ok(()), &[2, 0, 1], Some(0), true),
    (1, Change::Behind(2), Ok(()), &[2, 1, 0], Some(0), true),
    (2, Change::Behind(1), Ok(()), &[1, 2, 0], Some(0), false),
    (0, Change::Focus(Some(0)), Ok(()), &[1, 2, 0], Some(0), true),
    (0, Change::Hide, Ok(()), &[1, 2, 0], None, false),
    (0, Change::Show, Ok(()), &[1, 2, 0], None, true),
    (0, Change::Activate, Ok(()), &[0, 1, 2], Some(0), true),
    (1, Change::Hide, Ok(()), &[0, 1, 2], Some(0), false),
    (2, Change::Close, Ok(()), &[0, 1], Some(0), false),
    (1, Change::Behind(2), GONE, &[0, 1], Some(0), false),
    (2, Change::Behind(2), GONE, &[0, 1], Some(0), false),
    (2, Change::Show, GONE, &[0, 1], Some(0), false),
    (2, Change::Focus(None), GONE, &[0, 1], Some(0), false),
    (2, Change::MoveBy(65535, 0), GONE, &[0, 1], Some(0), false),
    (0, Change::Close, Ok(()), &[1], None, false),
];

#[test]
fn follows_its_changes(rt: HostRuntime) -> Result<(), Fail> {
    let mut stack = three(rt.alloc())?;
    assert_eq!(rt; stack.order.as_slice(), [2, 1, 0].as_slice());
    for (w, change, answer, order, active, shown) in &CHANGES {
        assert_eq!(rt;
            applied(&rt, &mut stack, *w, *change),
            *answer,
            "{change:?} of {w}"
        );
        assert_eq!(rt; stack.order.as_slice(), *order, "{change:?} of {w}");
        assert_eq!(rt; stack.active(), *active, "{change:?} of {w}");
        assert_eq!(rt; stack.is_shown(*w), *shown, "{change:?} of {w}");
    }
    assert_eq!(rt; stack.frame(2), Some(PIXEL));
    assert_eq!(rt; stack.flags(1), Some(WindowFlags::AVOID_FOCUS));
    assert_eq!(rt; stack.frame(3), None);
    assert_eq!(rt; stack.flags(3), None);
    assert!(rt; !stack.is_shown(3));
    Ok(())
}

const OFF_RANGE: Result<(), ChangeFault> = Err(ChangeFault::OffRange);

/// A change, its answer, and then the edges of the window's frame.
const MOVES: [(Change, Result<(), ChangeFault>, (i16, i16, i16, i16)); 15] = [
    (
        Change::MoveTo(Point {
            x: 32764,
            y: -32768,
        }),
        Ok(()),
        (32764, -32768, 32767, -32766),
    ),
    (
        Change::MoveTo(Point { x: 32765, y: 0 }),
        OFF_RANGE,
        (32764, -32768, 32767, -32766),
    ),
    (
        Change::MoveBy(1, 0),
        OFF_RANGE,
        (32764, -32768, 32767, -32766),
    ),
    (
        Change::MoveBy(0, -1),
        OFF_RANGE,
        (32764, -32768, 32767, -32766),
    ),
    (
        Change::MoveBy(-65532, 65533),
        Ok(()),
        (-32768, 32765, -32765, 32767),
    ),
    (
        Change::MoveTo(Point { x: 0, y: 32766 }),
        OFF_RANGE,
        (-32768, 32765, -32765, 32767),
    ),
    (
        Change::MoveBy(-65535, 0),
        OFF_RANGE,
        (-32768, 32765, -32765, 32767),
    ),
    (
        Change::ResizeTo(32767, 2),
        Ok(()),
        (-32768, 32765, -1, 32767),
    ),
    (
        Change::ResizeTo(32767, 3),
        OFF_RANGE,
        (-32768, 32765, -1, 32767),
    ),
    (
        Change::ResizeTo(0, 0),
        Ok(()),
        (-32768, 32765, -32768, 32765),
    ),
    (Change::MoveTo(Point { x: 0, y: 0 }), Ok(()), (0, 0, 0, 0)),
    (Change::ResizeTo(32767, 32767), Ok(()), (0, 0, 32767, 32767)),
    (Change::ResizeTo(0, 1), Ok(()), (0, 0, 0, 1)),
    (Change::MoveBy(1, 0), Ok(()), (1, 0, 1, 1)),
    (Change::ResizeTo(32767, 1), OFF_RANGE, (1, 0, 1, 1)),
];

#[test]
fn stays_in_the_range(rt: HostRuntime) -> Result<(), Fail> {
    let mut stack = Stack::new(rt.alloc(), 4, 3);
    let w = stack.add(WHOLE, WindowFlags::empty())?;
    for (change, answer, edges) in &MOVES {
        assert_eq!(rt; applied(&rt, &mut stack, w, *change), *answer, "{change:?}");
        let frame = stack.frame(w).ok_or("no frame")?;
        assert_eq!(rt;
            (frame.left, frame.top, frame.right, frame.bottom),
            *edges,
            "{change:?}"
        );
    }
    Ok(())
}

#[test]
fn hides_no_more_than_it_counts(rt: HostRuntime) -> Result<(), Fail> {
    for (was, change, hides) in [
        (0, Change::Show, 0),
        (0, Change::Hide, 1),
        (1, Change::Show, 0),
        (4294967294, Change::Hide, 4294967295),
        (4294967295, Change::Hide, 4294967295),
        (4294967295, Change::Show, 4294967294),
    ] {
        let mut stack = three(rt.alloc())?;
        assert!(rt; stack.is_open(1));
        assert!(rt; !stack.is_shown(1));
        stack.put(
            1,
            Window {
                frame: CORNER,
                hides: was,
                flags: WindowFlags::empty(),
                closed: false,
            },
        );
        applied(&rt, &mut stack, 1, change)?;
        let window = stack.windows.get(1).ok_or("no window")?;
        assert_eq!(rt; window.hides, hides, "{change:?} at {was}");
    }
    Ok(())
}

#[test]
fn refuses_frames(rt: HostRuntime) {
    let mut stack = Stack::new(rt.alloc(), 4, 3);
    for (left, top, right, bottom, answer) in [
        (1, 0, 0, 0, Err(StackFault::BadFrame)),
        (0, 1, 0, 0, Err(StackFault::BadFrame)),
        (32767, 0, -32768, 0, Err(StackFault::BadFrame)),
        (-1, 0, 32767, 0, Err(StackFault::BadFrame)),
        (0, -32768, 0, 0, Err(StackFault::BadFrame)),
        (0, 0, 0, 0, Ok(0)),
        (0, -32768, 32767, -1, Ok(1)),
    ] {
        let frame = Rect {
            left,
            top,
            right,
            bottom,
        };
        assert_eq!(rt; stack.add(frame, WindowFlags::empty()), answer, "{frame:?}");
    }
}

#[test]
fn has_32_windows(rt: HostRuntime) -> Result<(), Fail> {
    let mut stack = Stack::new(rt.alloc(), 4, 3);
    for number in 0..32 {
        assert_eq!(rt; stack.add(PIXEL, WindowFlags::all()), Ok(number));
    }
    let empty = Rect { right: 0, ..PIXEL };
    assert_eq!(rt;
        stack.add(PIXEL, WindowFlags::all()),
        Err(StackFault::TooMany)
    );
    assert_eq!(rt;
        stack.add(empty, WindowFlags::all()),
        Err(StackFault::BadFrame)
    );
    let copy = stack.copy()?;
    assert_eq!(rt; copy.frame(31), Some(PIXEL));
    assert_eq!(rt; copy.frame(32), None);
    Ok(())
}

#[test]
fn owns_pixels(rt: HostRuntime) -> Result<(), Fail> {
    let mut stack = three(rt.alloc())?;
    assert_eq!(rt; stack.owner_at(1, 1), None);
    for w in 0..3 {
        applied(&rt, &mut stack, w, Change::Show)?;
    }
    for (x, y, owner) in [
        (0, 0, Some(0)),
        (1, 1, Some(2)),
        (2, 1, Some(1)),
        (3, 2, Some(1)),
        (2, 0, Some(0)),
        (1, 2, Some(0)),
        (4, 2, None),
        (3, 3, None),
        (-1, 0, None),
        (0, -1, None),
        (2147483647, 0, None),
        (0, -2147483648, None),
    ] {
        assert_eq!(rt; stack.owner_at(x, y), owner, "at {x}, {y}");
    }
    applied(&rt, &mut stack, 0, Change::Activate)?;
    assert_eq!(rt; stack.owner_at(2, 1), Some(0));
    applied(&rt, &mut stack, 0, Change::Close)?;
    assert_eq!(rt; stack.owner_at(0, 0), None);
    Ok(())
}

#[test]
fn owns_the_only_pixel(rt: HostRuntime) -> Result<(), Fail> {
    let mut stack = Stack::new(rt.alloc(), 1, 1);
    let w = stack.add(WHOLE, WindowFlags::empty())?;
    applied(&rt, &mut stack, w, Change::Show)?;
    assert_eq!(rt; stack.owner_at(0, 0), Some(0));
    assert_eq!(rt; stack.owner_at(1, 0), None);
    assert_eq!(rt; stack.owner_at(0, 1), None);
    Ok(())
}

fn rect(left: i16, top: i16, right: i16, bottom: i16) -> Rect {
    Rect {
        left,
        top,
        right,
        bottom,
    }
}

fn has_rects(region: &Region, rects: &[Rect]) -> bool {
    let same = rects
        .iter()
        .enumerate()
        .all(|(place, rect)| region.rect_at(place) == Some(*rect));
    same && region.count() == rects.len()
}

/// Whether the regions of the windows tell of each pixel who owns it, on the screen and beside it.
fn owners_agree(stack: &Stack, regions: &[Region]) -> bool {
    for y in -1..4 {
        for x in -1..5 {
            let owner = stack.owner_at(x, y);
            for (w, region) in regions.iter().enumerate() {
                if region.contains(x, y) != (owner.map(usize::from) == Some(w)) {
                    return false;
                }
            }
        }
    }
    true
}

#[test]
fn sees_what_no_window_covers(rt: HostRuntime) -> Result<(), Fail> {
    let mut stack = three(rt.alloc())?;
    let none = [].as_slice();
    let on_screen = rect(2, 1, 3, 2);
    for (w, change, of_whole, of_corner, of_pixel) in [
        (0, Change::Show, [WHOLE].as_slice(), none, none),
        (
            2,
            Change::Show,
            [
                rect(0, 0, 3, 0),
                rect(0, 1, 0, 1),
                rect(2, 1, 3, 1),
                rect(0, 2, 3, 2),
            ]
            .as_slice(),
            none,
            [PIXEL].as_slice(),
        ),
        (
            1,
            Change::Show,
            [rect(0, 0, 3, 0), rect(0, 1, 0, 1), rect(0, 2, 1, 2)].as_slice(),
            [on_screen].as_slice(),
            [PIXEL].as_slice(),
        ),
        (
            1,
            Change::MoveBy(-4, -3),
            [rect(2, 0, 3, 1), rect(0, 2, 3, 2)].as_slice(),
            [rect(0, 0, 1, 0), rect(0, 1, 0, 1)].as_slice(),
            [PIXEL].as_slice(),
        ),
        (0, Change::Activate, [WHOLE].as_slice(), none, none),
        (
            0,
            Change::Close,
            none,
            [rect(0, 0, 1, 0), rect(0, 1, 0, 1)].as_slice(),
            [PIXEL].as_slice(),
        ),
    ] {
        applied(&rt, &mut stack, w, change)?;
        let regions = [stack.visible(0)?, stack.visible(1)?, stack.visible(2)?];
        assert!(rt; has_rects(&regions[0], of_whole), "{change:?} of {w}");
        assert!(rt; has_rects(&regions[1], of_corner), "{change:?} of {w}");
        assert!(rt; has_rects(&regions[2], of_pixel), "{change:?} of {w}");
        assert!(rt; owners_agree(&stack, &regions), "{change:?} of {w}");
    }
    assert!(rt; has_rects(&stack.visible(3)?, none));
    Ok(())
}

#[test]
fn sees_the_part_on_the_screen(rt: HostRuntime) -> Result<(), Fail> {
    let none = [].as_slice();
    for (width, height, frame, seen) in [
        (4, 1, rect(1, 0, 2, 0), [rect(1, 0, 2, 0)].as_slice()),
        (4, 1, rect(-9, -9, 0, 9), [rect(0, 0, 0, 0)].as_slice()),
        (4, 1, rect(4, 0, 9, 0), none),
        (0, 1, rect(0, 0, 9, 0), none),
        (1, 0, rect(0, 0, 9, 0), none),
        (
            65535,
            32768,
            rect(0, 0, 32767, 32767),
            [rect(0, 0, 32767, 32767)].as_slice(),
        ),
    ] {
        let mut stack = Stack::new(rt.alloc(), width, height);
        let w = stack.add(frame, WindowFlags::empty())?;
        assert!(rt; has_rects(&stack.visible(w)?, none), "{frame:?}");
        applied(&rt, &mut stack, w, Change::Show)?;
        assert!(rt; has_rects(&stack.visible(w)?, seen), "{frame:?}");
    }
    Ok(())
}

#[test]
fn sees_the_window_in_front(rt: HostRuntime) -> Result<(), Fail> {
    let only = rect(0, 0, 0, 0);
    let mut stack = Stack::new(rt.alloc(), 1, 1);
    for w in 0..2 {
        stack.add(only, WindowFlags::empty())?;
        applied(&rt, &mut stack, w, Change::Show)?;
    }
    assert!(rt; has_rects(&stack.visible(0)?, [].as_slice()));
    assert!(rt; has_rects(&stack.visible(1)?, [only].as_slice()));
    applied(&rt, &mut stack, 1, Change::Behind(0))?;
    assert!(rt; has_rects(&stack.visible(0)?, [only].as_slice()));
    assert!(rt; has_rects(&stack.visible(1)?, [].as_slice()));
    Ok(())
}

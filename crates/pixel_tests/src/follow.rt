use be_follow::{Across, Down, Follow, follow};
use be_geom::Rect;

const VIEW: Rect = Rect {
    left: 1,
    top: 0,
    right: 2,
    bottom: 0,
};

fn across(frame: Rect, across: Across, old: i32, new: i32) -> Option<(i16, i16)> {
    let mode = Follow {
        across,
        down: Down::Top,
    };
    let frame = follow(frame, mode, old, 1, new, 1).ok()?;
    Some((frame.left, frame.right))
}

fn down(frame: Rect, down: Down, old: i32, new: i32) -> Option<(i16, i16)> {
    let mode = Follow {
        across: Across::Left,
        down,
    };
    let frame = follow(frame, mode, 5, old, 5, new).ok()?;
    Some((frame.top, frame.bottom))
}

#[test]
fn follows_across(rt: HostRuntime) {
    for (mode, old, new, edges) in [
        (Across::Center, 5, 8, Some((3, 4))),
        (Across::Center, 8, 5, Some((-1, 0))),
        (Across::Center, -1, 0, Some((2, 3))),
        (Across::Center, 0, -3, Some((-1, 0))),
        (Across::Left, 5, 8, Some((1, 2))),
        (Across::Right, 5, 8, Some((4, 5))),
        (Across::LeftRight, 5, 8, Some((1, 5))),
        (Across::LeftRight, 5, 3, Some((1, 0))),
        (Across::Right, 0, 32765, Some((32766, 32767))),
        (Across::Right, 0, 32766, None),
        (Across::LeftRight, 0, -32770, Some((1, -32768))),
        (Across::LeftRight, 0, -32771, None),
        (Across::Right, -2147483648, 2147483647, None),
    ] {
        assert_eq!(rt; across(VIEW, mode, old, new), edges, "{mode:?} {old} {new}");
    }
}

#[test]
fn goes_and_comes_back(rt: HostRuntime) {
    let centred = Follow {
        across: Across::Center,
        down: Down::Top,
    };
    let moved = Rect {
        left: 3,
        right: 4,
        ..VIEW
    };
    assert_eq!(rt; follow(VIEW, centred, 5, 1, 8, 1), Ok(moved));
    assert_eq!(rt; follow(moved, centred, 8, 1, 5, 1), Ok(VIEW));
    let last = Rect {
        left: 32767,
        right: 32767,
        ..VIEW
    };
    assert_eq!(rt; across(last, Across::Right, 5, 5), Some((32767, 32767)));
    assert_eq!(rt; across(last, Across::Right, 5, 6), None);
}

#[test]
fn follows_down(rt: HostRuntime) {
    for (mode, old, new, edges) in [
        (Down::Top, 1, 7, Some((0, 0))),
        (Down::Bottom, 1, 7, Some((6, 6))),
        (Down::TopBottom, 1, 7, Some((0, 6))),
        (Down::Center, 1, 7, Some((3, 3))),
        (Down::Center, 7, 1, Some((-3, -3))),
        (Down::Bottom, 0, -32769, None),
    ] {
        assert_eq!(rt; down(VIEW, mode, old, new), edges, "{mode:?} {old} {new}");
    }
}

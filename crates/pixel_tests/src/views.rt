use be_follow::{Across, Down, Follow};
use be_geom::{OutOfRange, Rect};
use be_views::{ClipFault, ViewFault, ViewTree};
use std::alloc::Global;
use std::test::Fail;

const FIXED: Follow = Follow {
    across: Across::Left,
    down: Down::Top,
};

fn rect(left: i16, top: i16, right: i16, bottom: i16) -> Rect {
    Rect {
        left,
        top,
        right,
        bottom,
    }
}

/// Pixels, each with the view at it.
const VIEWS: [(i32, i32, Option<u16>); 12] = [
    (0, 0, Some(0)),
    (1, 1, Some(3)),
    (2, 1, Some(1)),
    (3, 3, Some(2)),
    (5, 5, Some(2)),
    (4, 4, Some(4)),
    (7, 4, Some(4)),
    (8, 4, Some(0)),
    (9, 9, Some(0)),
    (10, 9, None),
    (-1, 0, None),
    (2147483647, -2147483648, None),
];

#[test]
fn finds_the_later_of_two_children(rt: HostRuntime) -> Result<(), Fail> {
    let mut tree = ViewTree::new(rt.alloc(), 9, 9)?;
    same!(rt; tree.add(0, rect(1, 1, 5, 5), FIXED), Ok(1));
    same!(rt; tree.add(0, rect(3, 3, 7, 7), FIXED), Ok(2));
    same!(rt; tree.add(1, rect(0, 0, 0, 0), FIXED), Ok(3));
    same!(rt; tree.add(2, rect(1, 1, 20, 1), FIXED), Ok(4));
    for (x, y, view) in &VIEWS {
        same!(rt; tree.view_at(*x, *y), *view, (*x, *y));
    }
    let same = tree.copy()?;
    for (view, parent, place, frame) in [
        (0, None, Some((0, 0)), Some(rect(0, 0, 9, 9))),
        (1, Some(0), Some((1, 1)), Some(rect(1, 1, 5, 5))),
        (3, Some(1), Some((1, 1)), Some(rect(0, 0, 0, 0))),
        (4, Some(2), Some((4, 4)), Some(rect(1, 1, 20, 1))),
        (5, None, None, None),
    ] {
        same!(rt; same.parent(view), parent, view);
        same!(rt; same.place_of(view), place, view);
        same!(rt; same.frame_of(view), frame, view);
    }
    same!(rt; same.len(), 5);
    same!(rt; same.mode_of(4), Some(FIXED));
    same!(rt; same.mode_of(5), None);
    Ok(())
}

#[test]
fn refuses_views(rt: HostRuntime) -> Result<(), Fail> {
    let mut tree = ViewTree::new(rt.alloc(), 0, 0)?;
    same!(rt; tree.add(99, rect(0, 0, 0, 0), FIXED), Err(ViewFault::NoView));
    for parent in 0..7u16 {
        same!(rt; tree.add(parent, rect(0, 0, 0, 0), FIXED), Ok(parent + 1));
    }
    same!(rt; tree.add(7, rect(0, 0, 0, 0), FIXED), Err(ViewFault::TooDeep));
    for number in 8..32u16 {
        same!(rt; tree.add(0, rect(0, 0, 0, 0), FIXED), Ok(number));
    }
    same!(rt; tree.add(0, rect(0, 0, 0, 0), FIXED), Err(ViewFault::TooMany));
    same!(rt; tree.add(7, rect(0, 0, 0, 0), FIXED), Err(ViewFault::TooDeep));
    same!(rt; tree.len(), 32);
    Ok(())
}

/// A root with two children that overlap, each with a child.
fn five_views(alloc: Global) -> Result<ViewTree, Fail> {
    let mut tree = ViewTree::new(alloc, 9, 9)?;
    tree.add(0, rect(1, 1, 5, 5), FIXED)?;
    tree.add(0, rect(3, 3, 7, 7), FIXED)?;
    tree.add(1, rect(0, 0, 0, 0), FIXED)?;
    tree.add(2, rect(1, 1, 20, 1), FIXED)?;
    Ok(tree)
}

#[test]
fn cuts_a_view_by_those_round_it_and_in_it(rt: HostRuntime) -> Result<(), Fail> {
    let tree = five_views(rt.alloc())?;
    for (view, rects) in [
        (
            1,
            [
                Some(rect(2, 1, 5, 1)),
                Some(rect(1, 2, 5, 2)),
                Some(rect(1, 3, 2, 5)),
                None,
            ],
        ),
        (
            2,
            [
                Some(rect(3, 3, 7, 3)),
                Some(rect(3, 4, 3, 4)),
                Some(rect(3, 5, 7, 7)),
                None,
            ],
        ),
        (3, [Some(rect(1, 1, 1, 1)), None, None, None]),
        (4, [Some(rect(4, 4, 7, 4)), None, None, None]),
    ] {
        let clip = tree.clip_of(view)?;
        for (place, rect) in rects.iter().enumerate() {
            same!(rt; clip.rect_at(place), *rect, (place, view));
        }
    }
    same!(rt; tree.clip_of(0)?.frame(), Some(rect(0, 0, 9, 9)));
    assert!(rt; matches!(tree.clip_of(5), Err(ClipFault::NoView)));
    Ok(())
}

const RUNS: [(i32, i32, (Option<u16>, i32)); 12] = [
    (-5, 4, (None, -1)),
    (0, 4, (Some(0), 0)),
    (1, 4, (Some(1), 2)),
    (3, 4, (Some(2), 3)),
    (4, 4, (Some(4), 7)),
    (5, 4, (Some(4), 7)),
    (8, 4, (Some(0), 9)),
    (10, 4, (None, 2147483647)),
    (0, 10, (None, 2147483647)),
    (1, 1, (Some(3), 1)),
    (2, 1, (Some(1), 5)),
    (0, 9, (Some(0), 9)),
];

#[test]
fn goes_along_a_row(rt: HostRuntime) -> Result<(), Fail> {
    let tree = five_views(rt.alloc())?;
    for (x, y, run) in &RUNS {
        same!(rt; tree.run_at(*x, *y), *run, (*x, *y));
    }
    Ok(())
}

#[test]
fn follows_its_window(rt: HostRuntime) -> Result<(), Fail> {
    let right = Follow {
        across: Across::Right,
        down: Down::Top,
    };
    let grows = Follow {
        across: Across::LeftRight,
        down: Down::Center,
    };
    let mut tree = ViewTree::new(rt.alloc(), 4, 0)?;
    tree.add(0, rect(1, 0, 2, 0), grows)?;
    tree.add(1, rect(1, 0, 1, 0), right)?;
    for (width, height, first, second) in [
        (7, 0, rect(1, 0, 5, 0), rect(4, 0, 4, 0)),
        (0, 3, rect(1, 2, -2, 2), rect(-3, 0, -3, 0)),
        (4, 0, rect(1, 0, 2, 0), rect(1, 0, 1, 0)),
    ] {
        same!(rt; tree.resize(width, height), Ok(()));
        same!(rt; tree.frame_of(0), Some(rect(0, 0, width, height)));
        same!(rt; tree.frame_of(1), Some(first), width);
        same!(rt; tree.frame_of(2), Some(second), width);
    }
    Ok(())
}

#[test]
fn stays_where_a_view_would_leave_the_range(rt: HostRuntime) -> Result<(), Fail> {
    let right = Follow {
        across: Across::Right,
        down: Down::Top,
    };
    let mut tree = ViewTree::new(rt.alloc(), 0, 0)?;
    tree.add(0, rect(0, 0, 0, 0), right)?;
    tree.add(0, rect(32000, 0, 32767, 0), right)?;
    same!(rt; tree.resize(32767, 0), Err(OutOfRange));
    same!(rt; tree.frame_of(0), Some(rect(0, 0, 0, 0)));
    same!(rt; tree.frame_of(1), Some(rect(0, 0, 0, 0)));
    Ok(())
}

use super::*;
use be_follow::{Across, Down, Follow};
use be_geom::{Change, Rect};
use be_message::{Kind, Value};
use be_stack::{Stack, WindowFlags};
use be_views::ViewTree;
use bitflags::Flags;
use std::alloc::Global;
use std::process::Abort;
use std::test::Fail;

/// The characters of `MDWN`, `MUP_`, `MMOV` and `KEYD`.
const DOWN: u32 = 0x4d44_574e;

const UP: u32 = 0x4d55_505f;

const MOVED: u32 = 0x4d4d_4f56;

const KEY: u32 = 0x4b45_5944;

/// A message about the mouse: window, view, word, place, and transit if it has one.
type Sent = (u16, u16, u32, (i16, i16), Option<i32>);

/// What is due of an event, which then is remembered.
#[derive(Clone, Copy)]
struct Due {
    event: Event,
    activate: Option<u16>,
    first: Option<Sent>,
    second: Option<Sent>,
    under: Option<(u16, u16)>,
}

fn rect(left: i16, top: i16, right: i16, bottom: i16) -> Rect {
    Rect {
        left,
        top,
        right,
        bottom,
    }
}

/// A screen of 40 by 10 with three windows of 10 by 10 side by side; the second takes the first
/// click, the third avoids the focus, and the last ten columns are the desktop's. All are shown.
fn three(rt: &(impl Alloc<A = Global> + Abort)) -> Result<Stack, Fail> {
    let mut stack = Stack::new(rt.alloc(), 40, 10);
    stack.add(rect(0, 0, 9, 9), WindowFlags::empty())?;
    stack.add(rect(10, 0, 19, 9), WindowFlags::FIRST_CLICK)?;
    stack.add(rect(20, 0, 29, 9), WindowFlags::AVOID_FOCUS)?;
    change(rt, &mut stack, 0, Change::Show);
    change(rt, &mut stack, 1, Change::Show);
    change(rt, &mut stack, 2, Change::Show);
    Ok(stack)
}

fn change(rt: &impl Abort, stack: &mut Stack, w: u16, change: Change) {
    assert!(rt; stack.frame(w).is_some());
    match change {
        Change::Show => assert!(rt; stack.apply(w, &Change::Show).is_ok()),
        Change::Activate => assert!(rt; stack.apply(w, &Change::Activate).is_ok()),
        Change::Close => assert!(rt; stack.apply(w, &Change::Close).is_ok()),
        _ => assert!(rt; false),
    }
}

/// A view lies in the first window at (2, 3), and one in the third that begins far left of it.
fn views(rt: &impl Alloc<A = Global>) -> Result<Pointing, Fail> {
    let mode = Follow {
        across: Across::Right,
        down: Down::Top,
    };
    let mut trees = Vec::new(rt.alloc());
    for frame in [
        Some(rect(2, 3, 5, 6)),
        None,
        Some(rect(-32_768, 0, 32_767, 9)),
    ] {
        let mut tree = ViewTree::new(rt.alloc(), 9, 9)?;
        if let Some(frame) = frame {
            tree.add(0, frame, mode)?;
        }
        trees.push(tree)?;
    }
    Ok(Pointing::new(rt.alloc(), trees)?)
}

fn sent(post: &Option<Post>) -> Option<Sent> {
    let post = post.as_ref()?;
    let view = match post.target {
        Target::View(view) => view,
        _ => return None,
    };
    let place = match post.message.find("where", Kind::Point, 0).ok()? {
        Value::Point(p) => (p.x, p.y),
        _ => return None,
    };
    let transit = match post.message.find("transit", Kind::Int, 0) {
        Ok(Value::Int(transit)) => Some(*transit),
        _ => None,
    };
    Some((post.window, view, post.message.what(), place, transit))
}

fn is_due(
    rt: &(impl Alloc<A = Global> + Abort),
    stack: &Stack,
    pointing: &mut Pointing,
    due: &Due,
) -> Result<(), Fail> {
    let delivery = deliver(rt.alloc(), stack, pointing, &due.event)?;
    assert_eq!(rt; delivery.activate, due.activate);
    assert_eq!(rt; sent(&delivery.first), due.first);
    assert_eq!(rt; sent(&delivery.second), due.second);
    assert_eq!(rt; delivery.under, due.under);
    pointing.remember(delivery.under);
    Ok(())
}

fn press(x: i16, y: i16, activate: Option<u16>, first: Option<Sent>) -> Due {
    Due {
        event: Event::Press(Point { x, y }),
        activate,
        first,
        second: None,
        under: None,
    }
}

fn release(x: i16, y: i16, first: Option<Sent>) -> Due {
    Due {
        event: Event::Release(Point { x, y }),
        ..press(x, y, None, first)
    }
}

fn move_to(x: i16, y: i16, posts: (Option<Sent>, Option<Sent>), under: Option<(u16, u16)>) -> Due {
    Due {
        event: Event::Move(Point { x, y }),
        activate: None,
        first: posts.0,
        second: posts.1,
        under,
    }
}

#[test]
fn presses_and_releases_go_by_flags_and_views(rt: HostRuntime) -> Result<(), Fail> {
    let mut stack = three(&rt)?;
    let mut pointing = views(&rt)?;
    is_due(&rt, &stack, &mut pointing, &press(4, 5, Some(0), None))?;
    change(&rt, &mut stack, 0, Change::Activate);
    let cases = [
        press(4, 5, None, Some((0, 1, DOWN, (2, 2), None))),
        press(12, 3, Some(1), Some((1, 0, DOWN, (2, 3), None))),
        press(25, 9, None, Some((2, 1, DOWN, (32_767, 9), None))),
        press(35, 1, None, None),
        release(0, 9, Some((0, 0, UP, (0, 9), None))),
        release(12, 3, Some((1, 0, UP, (2, 3), None))),
        release(39, 9, None),
    ];
    for case in &cases {
        is_due(&rt, &stack, &mut pointing, case)?;
    }
    Ok(())
}

#[test]
fn the_pointer_leaves_one_view_and_enters_another(rt: HostRuntime) -> Result<(), Fail> {
    let mut stack = three(&rt)?;
    let mut pointing = views(&rt)?;
    let entered = (0, 1, MOVED, (3, 3), Some(0));
    let inside = (0, 1, MOVED, (0, 0), Some(1));
    let left = (0, 1, MOVED, (9, -2), Some(2));
    let next = (1, 0, MOVED, (1, 1), Some(0));
    let cases = [
        move_to(5, 6, (Some(entered), None), Some((0, 1))),
        move_to(2, 3, (Some(inside), None), Some((0, 1))),
        move_to(11, 1, (Some(left), Some(next)), Some((1, 0))),
    ];
    for case in &cases {
        is_due(&rt, &stack, &mut pointing, case)?;
    }
    change(&rt, &mut stack, 1, Change::Close);
    let from_closed = (1, 0, MOVED, (25, 9), Some(2));
    is_due(
        &rt,
        &stack,
        &mut pointing,
        &move_to(35, 9, (Some(from_closed), None), None),
    )?;
    is_due(
        &rt,
        &stack,
        &mut pointing,
        &move_to(36, 9, (None, None), None),
    )
}

/// Where a key goes: window, target, word and key.
fn key_sent(
    rt: &impl Alloc<A = Global>,
    stack: &Stack,
    pointing: &Pointing,
) -> Result<Option<(u16, Target, u32, i32)>, Fail> {
    let delivery = deliver(rt.alloc(), stack, pointing, &Event::Key(65))?;
    let Some(post) = &delivery.first else {
        return Ok(None);
    };
    Ok(match post.message.find("key", Kind::Int, 0) {
        Ok(Value::Int(key)) => Some((post.window, post.target, post.message.what(), *key)),
        _ => None,
    })
}

#[test]
fn keys_go_to_the_focus_of_the_active_window(rt: HostRuntime) -> Result<(), Fail> {
    let mut stack = three(&rt)?;
    let mut pointing = views(&rt)?;
    assert_eq!(rt; key_sent(&rt, &stack, &pointing)?, None);
    change(&rt, &mut stack, 0, Change::Activate);
    assert_eq!(rt;
        key_sent(&rt, &stack, &pointing)?,
        Some((0, Target::Window, KEY, 65))
    );
    assert!(rt; 0 < pointing.trees.len());
    pointing.set_focus(0, Some(1));
    assert_eq!(rt;
        key_sent(&rt, &stack, &pointing)?,
        Some((0, Target::View(1), KEY, 65))
    );
    change(&rt, &mut stack, 0, Change::Close);
    assert_eq!(rt; key_sent(&rt, &stack, &pointing)?, None);
    assert_eq!(rt; pointing.focus.first().copied(), Some(Some(1)));
    Ok(())
}

#[test]
fn a_resize_changes_one_tree_or_none(rt: HostRuntime) -> Result<(), Fail> {
    let mut pointing = views(&rt)?;
    assert!(rt; 2 < pointing.trees.len());
    assert!(rt; pointing.resize(0, 19, 9).is_ok());
    assert!(rt; 2 < pointing.trees.len());
    assert_eq!(rt; pointing.tree(0).frame_of(0), Some(rect(0, 0, 19, 9)));
    assert_eq!(rt; pointing.tree(0).frame_of(1), Some(rect(12, 3, 15, 6)));
    assert!(rt; pointing.resize(2, 10, 9).is_err());
    assert!(rt; 2 < pointing.trees.len());
    assert_eq!(rt; pointing.tree(2).frame_of(0), Some(rect(0, 0, 9, 9)));
    Ok(())
}

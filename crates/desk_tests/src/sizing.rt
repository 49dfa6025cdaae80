use crate::picture::{BLUE, GREEN, RED, picture, rect, shown, walk, window, with_children};
use be_color::Color;
use be_desk::PlanFault;
use be_follow::{Across, Down, Follow};
use be_geom::{Change, Rect};
use be_input::{Event, Post, deliver};
use be_message::Target;
use desk_screen::{Child, Refusal, Screen};
use std::alloc::Global;
use std::test::Fail;

const RED_VIEW: Color = Color::Solid(RED);

fn child(frame: Rect, across: Across, color: Color) -> Child {
    Child {
        parent: 0,
        frame,
        follow: Follow {
            across,
            down: Down::Top,
        },
        color,
    }
}

#[test]
fn a_child_that_follows_right_is_exposed(rt: HostRuntime) -> Result<(), Fail> {
    let children = [
        child(rect(0, 0, 0, 0), Across::Left, Color::Solid(GREEN)),
        child(rect(2, 0, 3, 0), Across::Right, Color::Solid(BLUE)),
    ];
    let windows = [with_children(rect(0, 0, 3, 0), RED_VIEW, &children)];
    let mut screen = shown(rt.alloc(), 6, 1, &windows)?;
    walk(
        &rt,
        &mut screen,
        (6, 1),
        &[
            (0, Change::Focus(Some(2)), "grbb.."),
            (0, Change::ResizeTo(4, 0), "grRBB."),
            (0, Change::ResizeTo(3, 0), "grBB.."),
            (0, Change::ResizeTo(0, 0), "B....."),
            (0, Change::ResizeTo(3, 1), "GRBB.."),
        ],
    )
}

#[test]
fn a_view_out_of_range_refuses_the_resize(rt: HostRuntime) -> Result<(), Fail> {
    let far = rect(32000, 0, 32767, 0);
    let children = [child(far, Across::Right, Color::Solid(BLUE))];
    let windows = [with_children(rect(0, 0, 1, 0), RED_VIEW, &children)];
    let mut screen = shown(rt.alloc(), 3, 1, &windows)?;
    let outcome = screen.change(rt.alloc(), 0, &Change::ResizeTo(32767, 0));
    assert_eq!(rt; outcome, Err(Refusal::Planned(PlanFault::OffRange)));
    let named = screen.affected(rt.alloc(), 0, &Change::ResizeTo(32767, 0));
    assert!(rt; named.is_err());
    let now = picture(rt.alloc(), &screen, 3, 1)?;
    assert_eq!(rt; now.as_str(), "rr.");
    assert_eq!(rt; screen.desk().stack.frame(0), Some(rect(0, 0, 1, 0)));
    let tree = screen.pane(0).map(|pane| pane.tree.frame_of(1));
    assert_eq!(rt; tree, Some(Some(far)));
    Ok(())
}

fn receiver(post: &Option<Post>) -> Option<(u16, u16)> {
    let post = post.as_ref()?;
    match post.target {
        Target::View(view) => Some((post.window, view)),
        _ => None,
    }
}

/// The window and the view that get a key.
fn key_goes_to(alloc: Global, screen: &Screen) -> Result<Option<(u16, u16)>, Fail> {
    let desk = screen.desk();
    let delivery = deliver(alloc, &desk.stack, &desk.pointing, &Event::Key(65))?;
    Ok(receiver(&delivery.first))
}

#[test]
fn a_close_leaves_the_focus(rt: HostRuntime) -> Result<(), Fail> {
    let children = [child(rect(0, 0, 0, 0), Across::Left, Color::Solid(GREEN))];
    let windows = [
        with_children(rect(0, 0, 1, 0), RED_VIEW, &children),
        window(rect(1, 0, 2, 0), Color::Solid(BLUE)),
    ];
    let mut screen = shown(rt.alloc(), 3, 1, &windows)?;
    walk(
        &rt,
        &mut screen,
        (3, 1),
        &[
            (0, Change::Activate, "gRb"),
            (0, Change::Focus(Some(1)), "gRb"),
            (1, Change::Close, "gR."),
        ],
    )?;
    assert_eq!(rt; key_goes_to(rt.alloc(), &screen)?, Some((0, 1)));
    let pointing = format!(in rt.alloc(); "{:?}", screen.desk().pointing)?;
    screen.change(rt.alloc(), 0, &Change::Close)?;
    assert_eq!(rt; key_goes_to(rt.alloc(), &screen)?, None);
    let then_pointing = format!(in rt.alloc(); "{:?}", screen.desk().pointing)?;
    assert_eq!(rt; then_pointing.as_str(), pointing.as_str());
    Ok(())
}

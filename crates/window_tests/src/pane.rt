use be_color::{Color, Rgb};
use be_geom::{NoMemory, Point, Rect};
use be_pane::Pane;
use be_region::Region;
use be_span::{Cell, SpanBuf};
use be_views::ViewTree;
use std::alloc::Global;
use std::test::Fail;

const WHITE: Color = Color::Solid(Rgb::WHITE);

const SQUARE: Rect = Rect {
    left: 3,
    top: 4,
    right: 4,
    bottom: 5,
};

/// Window 7, which has one view.
fn first_pane(alloc: Global) -> Result<Pane, NoMemory> {
    let tree = ViewTree::new(alloc, 1, 1)?;
    let mut colors = Vec::new(alloc);
    colors.push(WHITE)?;
    if colors.len() != tree.len() {
        return Err(NoMemory);
    }
    Pane::new(alloc, 7, tree, colors)
}

/// The square, whose last pixel is dirty or not.
fn square(alloc: Global, dirty: bool) -> Result<SpanBuf, NoMemory> {
    let mut spans = SpanBuf::prepare(alloc, Region::from_rect(alloc, SQUARE)?)?;
    let cell = Cell {
        rgb: Rgb::WHITE,
        dirty,
    };
    let _inside = spans.set(4, 5, cell);
    Ok(spans)
}

#[test]
fn a_new_pane_owns_no_pixel(rt: HostRuntime) -> Result<(), Fail> {
    let pane = first_pane(rt.alloc())?;
    assert_eq!(rt; pane.window, 7);
    assert_eq!(rt; pane.place, Point { x: 0, y: 0 });
    assert_eq!(rt; pane.spans().region().count(), 0);
    assert_eq!(rt; pane.spans().get(0, 0), None);
    assert_eq!(rt; pane.tree().view_at(1, 1), Some(0));
    assert_eq!(rt; pane.colors.as_slice(), [WHITE].as_slice());
    assert_eq!(rt; pane.states.len(), 1);
    assert!(rt; pane.session().is_none());
    assert!(rt; !pane.notified);
    assert!(rt; !pane.is_owed());
    Ok(())
}

#[test]
fn a_notice_is_owed(rt: HostRuntime) -> Result<(), Fail> {
    for (dirty, in_session, notified, owed) in [
        (true, false, false, true),
        (false, false, false, false),
        (true, true, false, false),
        (true, false, true, false),
        (true, true, true, false),
        (false, true, true, false),
    ] {
        let mut pane = first_pane(rt.alloc())?;
        pane.place = Point { x: 3, y: 4 };
        pane.spans = square(rt.alloc(), dirty)?;
        if in_session {
            pane.session = Some(Region::from_rect(rt.alloc(), SQUARE)?);
        }
        if notified {
            pane.mark_notified();
        }
        assert_eq!(rt; pane.is_owed(), owed, "{dirty} {in_session} {notified}");
        assert_eq!(rt; pane.session().is_some(), in_session);
        assert_eq!(rt; pane.spans().dirty_count(), usize::from(dirty));
    }
    Ok(())
}

#[test]
fn a_drawn_pixel_ends_the_debt(rt: HostRuntime) -> Result<(), Fail> {
    let mut pane = first_pane(rt.alloc())?;
    pane.spans = square(rt.alloc(), true)?;
    assert!(rt; pane.is_owed());
    pane.spans.clear_marks();
    assert!(rt; !pane.is_owed());
    Ok(())
}

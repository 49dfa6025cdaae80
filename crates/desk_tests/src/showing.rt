use crate::picture::{BLUE, GREEN, RED, picture, rect, shown, walk, window};
use be_color::{Color, Rgb};
use be_desk::PlanFault;
use be_geom::Change;
use be_span::Cell;
use desk_screen::{Refusal, Screen};
use std::test::Fail;

const RED_VIEW: Color = Color::Solid(RED);

const GREEN_VIEW: Color = Color::Solid(GREEN);

const BLUE_VIEW: Color = Color::Solid(BLUE);

#[test]
fn a_window_hidden_twice_stays_hidden(rt: HostRuntime) -> Result<(), Fail> {
    let windows = [window(rect(0, 0, 0, 0), RED_VIEW)];
    let mut screen = Screen::new(rt.alloc(), 1, 1, &windows)?;
    walk(
        &rt,
        &mut screen,
        (1, 1),
        &[
            (0, Change::Show, "R"),
            (0, Change::Hide, "."),
            (0, Change::Hide, "."),
            (0, Change::Show, "."),
            (0, Change::Show, "R"),
        ],
    )
}

#[test]
fn the_window_in_front_shows(rt: HostRuntime) -> Result<(), Fail> {
    let windows = [
        window(rect(0, 0, 0, 0), RED_VIEW),
        window(rect(0, 0, 0, 0), BLUE_VIEW),
    ];
    let mut screen = Screen::new(rt.alloc(), 1, 1, &windows)?;
    walk(
        &rt,
        &mut screen,
        (1, 1),
        &[
            (0, Change::Show, "R"),
            (1, Change::Show, "B"),
            (1, Change::Behind(0), "R"),
            (1, Change::Behind(1), "R"),
            (1, Change::Activate, "B"),
        ],
    )
}

#[test]
fn a_closed_window_is_gone(rt: HostRuntime) -> Result<(), Fail> {
    let windows = [
        window(rect(0, 0, 1, 0), RED_VIEW),
        window(rect(1, 0, 2, 0), BLUE_VIEW),
    ];
    let mut screen = shown(rt.alloc(), 3, 1, &windows)?;
    walk(&rt, &mut screen, (3, 1), &[(1, Change::Close, "rR.")])?;
    for (w, change) in [
        (1, Change::Show),
        (1, Change::Close),
        (1, Change::MoveBy(65535, 0)),
        (1, Change::Focus(Some(0))),
        (0, Change::Behind(1)),
        (1, Change::Behind(0)),
    ] {
        let outcome = screen.change(rt.alloc(), w, &change);
        assert_eq!(rt;
            outcome,
            Err(Refusal::Planned(PlanFault::Gone)),
            "{w} {change:?}"
        );
        let now = picture(rt.alloc(), &screen, 3, 1)?;
        assert_eq!(rt; now.as_str(), "rR.");
    }
    assert_eq!(rt;
        screen.pane(1).map(|pane| pane.spans.region().count()),
        Some(0)
    );
    Ok(())
}

#[test]
fn closes_covered_and_active_windows(rt: HostRuntime) -> Result<(), Fail> {
    let windows = [
        window(rect(0, 0, 2, 0), RED_VIEW),
        window(rect(3, 0, 4, 0), GREEN_VIEW),
        window(rect(2, 0, 4, 0), BLUE_VIEW),
    ];
    let mut screen = shown(rt.alloc(), 6, 1, &windows)?;
    walk(
        &rt,
        &mut screen,
        (6, 1),
        &[
            (1, Change::Close, "rrbbb."),
            (2, Change::Activate, "rrbbb."),
        ],
    )?;
    assert_eq!(rt; screen.desk().stack.active(), Some(2));
    walk(&rt, &mut screen, (6, 1), &[(2, Change::Close, "rrR...")])?;
    assert_eq!(rt; screen.desk().stack.active(), None);
    Ok(())
}

#[test]
fn a_transparent_view_keeps_what_stood_there(rt: HostRuntime) -> Result<(), Fail> {
    let windows = [
        window(rect(1, 0, 2, 0), RED_VIEW),
        window(rect(0, 0, 3, 0), Color::Clear),
    ];
    let mut screen = Screen::new(rt.alloc(), 4, 1, &windows)?;
    walk(&rt, &mut screen, (4, 1), &[(0, Change::Show, ".RR.")])?;
    let black = Cell {
        rgb: Rgb::BLACK,
        dirty: false,
    };
    assert!(rt; screen.set(0, 2, 0, black));
    assert!(rt; !screen.set(0, 3, 0, black));
    walk(
        &rt,
        &mut screen,
        (4, 1),
        &[
            (1, Change::Show, "DRKD"),
            (0, Change::Activate, "DRRD"),
            (0, Change::Close, "DRRD"),
        ],
    )
}

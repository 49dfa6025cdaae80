use crate::picture::{BLUE, RED, rect, shown, walk, window};
use be_color::{Color, Rgb};
use be_geom::{Change, Point};
use be_span::Cell;
use desk_screen::Screen;
use std::test::Fail;

const BLACK: Cell = Cell {
    rgb: Rgb::BLACK,
    dirty: false,
};

#[test]
fn a_drawn_pixel_goes_with_its_window(rt: HostRuntime) -> Result<(), Fail> {
    let windows = [window(rect(0, 0, 1, 0), Color::Solid(Rgb::WHITE))];
    let mut screen = Screen::new(rt.alloc(), 4, 1, &windows)?;
    walk(&rt, &mut screen, (4, 1), &[(0, Change::Show, "WW..")])?;
    assert!(rt; screen.set(0, 0, 0, BLACK));
    walk(
        &rt,
        &mut screen,
        (4, 1),
        &[
            (0, Change::MoveBy(1, 0), ".kW."),
            (0, Change::MoveTo(Point { x: 2, y: 0 }), "..kW"),
            (0, Change::MoveBy(1, 0), "...k"),
            (0, Change::MoveBy(-2, 0), ".kW."),
        ],
    )
}

/// The window in front has a black pixel left above, and a dirty one right below.
#[test]
fn goes_by_a_pixel_in_each_direction(rt: HostRuntime) -> Result<(), Fail> {
    let windows = [
        window(rect(0, 0, 3, 4), Color::Solid(BLUE)),
        window(rect(1, 1, 3, 3), Color::Solid(RED)),
    ];
    let dirty = Cell {
        rgb: RED,
        dirty: true,
    };
    for (dx, dy, rows) in [
        (-1, -1, "krrb./rrrB./rrRB./bBBB./bbbb."),
        (0, -1, "bkrr./brrr./brrR./bBBB./bbbb."),
        (1, -1, "bbkrr/bBrrr/bBrrR/bBBB./bbbb."),
        (-1, 0, "bbbb./krrB./rrrB./rrRB./bbbb."),
        (1, 0, "bbbb./bBkrr/bBrrr/bBrrR/bbbb."),
        (-1, 1, "bbbb./bBBB./krrB./rrrB./rrRb."),
        (0, 1, "bbbb./bBBB./bkrr./brrr./brrR."),
        (1, 1, "bbbb./bBBB./bBkrr/bBrrr/bbrrR"),
    ] {
        let mut screen = shown(rt.alloc(), 5, 5, &windows)?;
        assert!(rt; screen.set(1, 1, 1, BLACK) && screen.set(1, 3, 3, dirty));
        walk(
            &rt,
            &mut screen,
            (5, 5),
            &[(1, Change::MoveBy(dx, dy), rows)],
        )?;
    }
    Ok(())
}

/// What comes from beyond the screen is exposed.
#[test]
fn comes_back_from_off_the_screen(rt: HostRuntime) -> Result<(), Fail> {
    let windows = [window(rect(0, 0, 1, 1), Color::Solid(RED))];
    let mut screen = shown(rt.alloc(), 3, 2, &windows)?;
    walk(
        &rt,
        &mut screen,
        (3, 2),
        &[
            (0, Change::MoveBy(-1, -1), "r../..."),
            (0, Change::MoveBy(2, 1), ".RR/.Rr"),
            (0, Change::MoveBy(0, 65), ".../..."),
        ],
    )
}

/// What comes from under another window is exposed.
#[test]
fn comes_out_from_under_another(rt: HostRuntime) -> Result<(), Fail> {
    let windows = [
        window(rect(0, 0, 2, 0), Color::Solid(RED)),
        window(rect(2, 0, 3, 0), Color::Solid(BLUE)),
    ];
    let mut screen = shown(rt.alloc(), 5, 1, &windows)?;
    assert!(rt; screen.set(0, 0, 0, BLACK));
    walk(
        &rt,
        &mut screen,
        (5, 1),
        &[
            (0, Change::MoveBy(1, 0), ".kbb."),
            (0, Change::MoveBy(-1, 0), "kRbb."),
        ],
    )
}

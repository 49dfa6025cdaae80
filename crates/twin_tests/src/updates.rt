use crate::board::{Board, assert_draws, rect};
use be_geom::Rect;
use be_update::{UpdateFault, begin, pass, survey};
use std::alloc::Global;
use std::process::Abort;
use std::test::Fail;

const INVALID: [(&str, &str); 10] = [
    ("viewcolor root ff0000", "same"),
    ("viewcolor kid 00ff00", "same"),
    ("clip root 0 0 0 0", "same"),
    ("invalidate kid 1 -3 3 0", "wwGww|wwwww|www  |     |"),
    ("origin root 1 0", "same"),
    ("invalidate root 0 0 2 0", "wGGRw|wwwww|www  |     |"),
    ("origin root 0 0", "same"),
    ("invalidate root 0 0 9 9", "RGGRR|RGGRR|RRR  |     |"),
    ("viewcolor kid 0000ff", "same"),
    ("invalidate kid 0 0 9 9", "RBBRR|RBBRR|RRR  |     |"),
];

#[test]
fn invalid_pixels_get_the_colours_of_their_views(rt: HostRuntime) -> Result<(), Fail> {
    assert_draws(&rt, rt.alloc(), Some(rect(0, 0, 0, 0)), &INVALID)
}

const TRANSPARENT: [(&str, &str); 5] = [
    ("viewcolor root clear", "same"),
    ("fill root 3 0 9 0 high", "wwwkk|wwwww|www  |     |"),
    ("invalidate root 2 0 3 2", "wwWKk|wwWWw|wwW  |     |"),
    ("fill root 0 0 9 9 high", "kwWKk|kwWKk|kkK  |     |"),
    ("bitmap root pic 0 2", "kwWKk|kwWKk|rkB  |     |"),
];

#[test]
fn a_transparent_view_keeps_its_pixels(rt: HostRuntime) -> Result<(), Fail> {
    assert_draws(&rt, rt.alloc(), None, &TRANSPARENT)
}

/// Asserts which views have pixels that wait after a command, each with the rectangle round them.
fn assert_listed(
    rt: &impl Abort,
    alloc: Global,
    mut board: Board,
    line: &str,
    views: &[(u16, Rect)],
) -> Result<(), Fail> {
    let _done = board.execute(alloc, line)?;
    let mut pane = board.pane;
    pane.mark_notified();
    let found = survey(alloc, &pane)?;
    let listed = begin(&mut pane, found);
    same!(rt; listed.as_slice(), views, line);
    let left = (
        pane.session().is_some(),
        pane.spans().is_clean(),
        pane.notified,
    );
    same!(rt; left, (true, true, false), line);
    Ok(())
}

#[test]
fn views_that_wait_are_listed(rt: HostRuntime) -> Result<(), Fail> {
    let alloc = rt.alloc();
    let far = rect(9, 9, 9, 9);
    let first = Board::of(alloc, 1, 1, &[rect(1, 1, 2, 2)], far)?;
    let all = [(0, rect(0, 0, 1, 1))];
    assert_listed(&rt, alloc, first, "invalidate root 0 0 1 1", &all)?;
    let both = [(0, rect(0, 1, 4, 2)), (1, rect(0, 1, 1, 1))];
    let board = Board::new(alloc)?;
    assert_listed(&rt, alloc, board, "invalidate root 0 1 4 2", &both)?;
    let one = [(1, rect(1, 0, 1, 0))];
    assert_listed(
        &rt,
        alloc,
        Board::new(alloc)?,
        "invalidate kid 1 0 1 0",
        &one,
    )
}

#[test]
fn nothing_waits_on_a_clean_pane(rt: HostRuntime) -> Result<(), Fail> {
    let mut pane = Board::new(rt.alloc())?.pane;
    pane.mark_notified();
    let fault = survey(rt.alloc(), &pane).err();
    same!(rt; fault, Some(UpdateFault::NothingDirty));
    assert!(rt; pane.spans.is_clean());
    assert!(rt; pane.session.is_none());
    pass(&mut pane);
    same!(rt; pane.notified, false);
    Ok(())
}

#[test]
fn an_update_is_under_way(rt: HostRuntime) -> Result<(), Fail> {
    for line in ["invalidate root 0 0 9 9", "push root"] {
        let mut board = Board::new(rt.alloc())?;
        let _done = board.execute(rt.alloc(), line)?;
        board.open(rt.alloc(), rect(0, 0, 0, 0))?;
        let fault = survey(rt.alloc(), &board.pane).err();
        same!(rt; fault, Some(UpdateFault::InSession), line);
    }
    Ok(())
}

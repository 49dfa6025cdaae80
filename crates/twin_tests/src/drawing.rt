use crate::board::{Board, assert_draws, assert_shows, rect};
use be_geom::Point;
use std::test::Fail;

const FILLS_AND_LINES: [(&str, &str); 9] = [
    ("fill root 0 0 9 9 high", "kwwkk|kwwkk|kkk  |     |"),
    ("fill kid -1 1 0 1 high", "kwwkk|kkwkk|kkk  |     |"),
    ("high root ff0000", "same"),
    ("frame root 0 0 4 1 high", "rwwrr|rkwrr|kkk  |     |"),
    ("high root 00ff00", "same"),
    ("line root 2 2 4 1 high", "rwwrr|rkwgg|kkg  |     |"),
    ("pensize root 2", "same"),
    ("line root 3 0 3 0 low", "rwwww|rkwww|kkg  |     |"),
    ("line root 0 0 1 0 high", "gwwww|gkwww|kkg  |     |"),
];

#[test]
fn fills_and_lines_stay_in_their_view(rt: HostRuntime) -> Result<(), Fail> {
    assert_draws(&rt, rt.alloc(), None, &FILLS_AND_LINES)
}

const PATTERNS: [(&str, &str); 7] = [
    ("low root ff0000", "same"),
    ("low kid 0000ff", "same"),
    ("fill root 0 0 9 9 mixed", "kwwrk|rwwkr|krk  |     |"),
    ("fill kid 0 0 9 9 mixed", "kbkrk|rkbkr|krk  |     |"),
    ("mode root over", "same"),
    ("high root 00ff00", "same"),
    ("fill root 0 0 9 9 mixed", "gbkrg|rkbgr|grg  |     |"),
];

#[test]
fn patterns_lie_in_the_window(rt: HostRuntime) -> Result<(), Fail> {
    assert_draws(&rt, rt.alloc(), None, &PATTERNS)
}

const TEXTS: [(&str, &str); 10] = [
    ("pen root 0 2", "same"),
    ("text root _", "wwwww|wwwww|kkk  |     |"),
    ("high root ff0000", "same"),
    ("clip root 2 0 3 9", "same"),
    ("pen root -5 2", "same"),
    ("text root __", "wwwww|wwwww|kkr  |     |"),
    ("pen root 1 2", "same"),
    ("text root |", "wwwrw|wwwrw|kkr  |     |"),
    ("pen kid -1 2", "same"),
    ("text kid !", "wwkrw|wwwrw|kkr  |     |"),
];

#[test]
fn texts_stay_in_their_clip(rt: HostRuntime) -> Result<(), Fail> {
    assert_draws(&rt, rt.alloc(), None, &TEXTS)
}

const BITMAPS: [(&str, &str); 5] = [
    ("bitmap root pic 3 0", "wwwrw|wwwww|www  |     |"),
    ("fill root 0 2 2 2 high", "wwwrw|wwwww|kkk  |     |"),
    ("bitmap root pic 0 2", "wwwrw|wwwww|rkb  |     |"),
    ("bitmap root pic 2 1", "wwwrw|wwwwb|rkb  |     |"),
    ("bitmap kid nine -1 -1", "wycrw|whwwb|rkb  |     |"),
];

#[test]
fn bitmaps_leave_what_is_under_their_holes(rt: HostRuntime) -> Result<(), Fail> {
    assert_draws(&rt, rt.alloc(), None, &BITMAPS)
}

const BOUND_DRAWING: [(&str, &str); 7] = [
    ("clip kid 0 0 0 9", "same"),
    ("fill kid 0 0 9 9 high", "wkwww|wwwww|www  |     |"),
    ("clip root 0 0 0 9 4 0 4 9", "same"),
    ("fill root 0 0 9 9 high", "kkwww|wwwww|www  |     |"),
    ("end", "same"),
    ("fill root 0 0 9 9 high", "kkwwk|kwwwk|kww  |     |"),
    ("fill kid 0 0 9 9 high", "kkwwk|kkwwk|kww  |     |"),
];

#[test]
fn updates_and_clips_bound_drawing(rt: HostRuntime) -> Result<(), Fail> {
    let mut board = Board::new(rt.alloc())?;
    board.open(rt.alloc(), rect(0, 0, 3, 0))?;
    assert_shows(&rt, rt.alloc(), &mut board, &BOUND_DRAWING)?;
    assert!(rt; board.pane.session().is_none());
    Ok(())
}

const PENS: [(&str, i16, i16); 14] = [
    ("pen root 7 -8", 7, -8),
    ("line root 0 0 2 1 high", 2, 1),
    ("line root 100 100 300 -200 low", 300, -200),
    ("text root ", 300, -200),
    ("text root abc", 318, -200),
    ("fill root 0 0 9 9 high", 318, -200),
    ("frame root 0 0 9 9 high", 318, -200),
    ("bitmap root pic 0 0", 318, -200),
    ("copybits root 0 0 1 1 2 2", 318, -200),
    ("invalidate root 0 0 1 1", 318, -200),
    ("pen root 32760 1", 32760, 1),
    ("text root a", 32766, 1),
    ("text root a", 32767, 1),
    ("text root a", 32767, 1),
];

#[test]
fn lines_and_texts_move_the_pen(rt: HostRuntime) -> Result<(), Fail> {
    let mut board = Board::new(rt.alloc())?;
    for (line, x, y) in &PENS {
        let _done = board.execute(rt.alloc(), line)?;
        let due = Some(Point { x: *x, y: *y });
        let unmoved = Some(Point { x: 0, y: 0 });
        same!(rt; (board.pen(0), board.pen(1)), (due, unmoved), *line);
    }
    Ok(())
}

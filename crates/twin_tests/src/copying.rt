use crate::board::{Board, assert_draws, assert_shows, rect};
use std::alloc::Global;
use std::process::Abort;
use std::test::Fail;

const MISSING_SOURCE: [(&str, &str); 4] = [
    ("fill root 0 0 3 0 high", " kkk |     |     |     |"),
    ("copybits root 0 0 1 0 2 0", " kWk |     |     |     |"),
    ("viewcolor root clear", "same"),
    ("copybits root 0 0 0 0 1 0", " KWk |     |     |     |"),
];

#[test]
fn a_missing_source_is_marked(rt: HostRuntime) -> Result<(), Fail> {
    let far = rect(9, 9, 9, 9);
    let mut board = Board::of(rt.alloc(), 3, 0, &[rect(2, 1, 4, 1)], far)?;
    assert_shows(&rt, rt.alloc(), &mut board, &MISSING_SOURCE)
}

const SOURCES: [(&str, &str); 5] = [
    ("viewcolor root ff0000", "same"),
    ("fill kid 0 0 0 0 high", "wkwww|wwwww|www  |     |"),
    ("copybits kid 0 0 0 0 1 1", "wkwww|wwkww|www  |     |"),
    ("copybits root 0 0 2 0 0 2", "wkwww|wwkww|wRR  |     |"),
    ("copybits root 2 2 3 2 3 0", "wkwrR|wwkww|wRR  |     |"),
];

#[test]
fn sources_are_of_the_view(rt: HostRuntime) -> Result<(), Fail> {
    assert_draws(&rt, rt.alloc(), None, &SOURCES)
}

const BOUND_COPIES: [(&str, &str); 5] = [
    ("viewcolor root 00ff00", "same"),
    ("clip root 4 0 4 9", "same"),
    ("mode root invert", "same"),
    ("copybits root 1 0 2 1 3 0", "wwwwG|wwwww|www  |     |"),
    ("copybits root 0 0 0 0 4 0", "wwwwW|wwwww|www  |     |"),
];

#[test]
fn copies_stay_in_update_and_clip(rt: HostRuntime) -> Result<(), Fail> {
    assert_draws(&rt, rt.alloc(), Some(rect(0, 0, 9, 0)), &BOUND_COPIES)
}

/// Asserts what nine pixels show that are copied over themselves.
fn assert_copied(rt: &impl Abort, alloc: Global, line: &str, due: &str) -> Result<(), Fail> {
    let far = rect(9, 9, 9, 9);
    let mut board = Board::of(alloc, 2, 2, &[rect(1, 1, 3, 3)], far)?;
    let steps = [
        ("bitmap root nine 0 0", "krg  |byc  |mhw  |     |"),
        (line, due),
    ];
    assert_shows(rt, alloc, &mut board, &steps)
}

const COPIES: [(&str, &str); 9] = [
    ("copybits root 0 0 2 2 1 0", "kkr  |bby  |mmh  |     |"),
    ("copybits root 0 0 2 2 -1 0", "rgg  |ycc  |hww  |     |"),
    ("copybits root 0 0 2 2 0 1", "krg  |krg  |byc  |     |"),
    ("copybits root 0 0 2 2 0 -1", "byc  |mhw  |mhw  |     |"),
    ("copybits root 0 0 2 2 1 1", "krg  |bkr  |mby  |     |"),
    ("copybits root 0 0 2 2 -1 -1", "ycg  |hwc  |mhw  |     |"),
    ("copybits root 0 0 2 2 1 -1", "kby  |bmh  |mhw  |     |"),
    ("copybits root 0 0 2 2 -1 1", "krg  |rgc  |ycw  |     |"),
    ("copybits root 0 0 2 2 0 0", "krg  |byc  |mhw  |     |"),
];

#[test]
fn a_copy_reads_the_old_pixels(rt: HostRuntime) -> Result<(), Fail> {
    for (line, due) in &COPIES {
        assert_copied(&rt, rt.alloc(), line, due)?;
    }
    Ok(())
}

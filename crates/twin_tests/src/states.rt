use crate::board::{Board, assert_draws, assert_outcomes};
use be_twin::Outcome;
use std::test::Fail;

/// Lines, each with how often it comes, and what comes of it each time.
const SIXTEEN: [(&str, u8, Outcome); 6] = [
    ("pop root", 1, Outcome::StackEmpty),
    ("push root", 16, Outcome::Done),
    ("push root", 1, Outcome::StackFull),
    ("push kid", 1, Outcome::Done),
    ("pop root", 16, Outcome::Done),
    ("pop root", 1, Outcome::StackEmpty),
];

#[test]
fn sixteen_states_are_saved(rt: HostRuntime) -> Result<(), Fail> {
    let mut board = Board::new(rt.alloc())?;
    for (line, times, due) in &SIXTEEN {
        for _time in 0..*times {
            same!(rt; board.execute(rt.alloc(), line)?, *due, *line);
        }
    }
    Ok(())
}

const REFUSED_FIGURES: [(&str, Outcome); 9] = [
    ("fill lost 0 0 9 9 high", Outcome::NoView),
    ("frame lost 0 0 9 9 high", Outcome::NoView),
    ("line lost 0 0 9 9 high", Outcome::NoView),
    ("text lost abc", Outcome::NoView),
    ("bitmap lost pic 0 0", Outcome::NoView),
    ("bitmap lost gone 0 0", Outcome::NoView),
    ("bitmap root gone 0 0", Outcome::NoBitmap),
    ("copybits lost 0 0 1 1 2 2", Outcome::NoView),
    ("invalidate lost 0 0 9 9", Outcome::NoView),
];

#[test]
fn figures_want_their_view_and_bitmap(rt: HostRuntime) -> Result<(), Fail> {
    assert_outcomes(&rt, rt.alloc(), &REFUSED_FIGURES)
}

const REFUSED_SETTINGS: [(&str, Outcome); 11] = [
    ("high lost 00ff00", Outcome::NoView),
    ("low lost 00ff00", Outcome::NoView),
    ("viewcolor lost 00ff00", Outcome::NoView),
    ("mode lost invert", Outcome::NoView),
    ("pensize lost 2", Outcome::NoView),
    ("pen lost 1 1", Outcome::NoView),
    ("origin lost 1 1", Outcome::NoView),
    ("clip lost none", Outcome::NoView),
    ("clip lost 0 0 1 1", Outcome::NoView),
    ("push lost", Outcome::NoView),
    ("pop lost", Outcome::NoView),
];

#[test]
fn settings_want_their_view(rt: HostRuntime) -> Result<(), Fail> {
    assert_outcomes(&rt, rt.alloc(), &REFUSED_SETTINGS)
}

const ORIGINS: [(&str, &str); 8] = [
    ("origin root 1 0", "same"),
    ("push root", "same"),
    ("fill root 0 2 0 2 high", "wwwww|wwwww|wkw  |     |"),
    ("origin root 1 -1", "same"),
    ("high root ff0000", "same"),
    ("fill root 0 3 0 3 high", "wwwww|wwwww|wkr  |     |"),
    ("pop root", "same"),
    ("fill root -1 2 -1 2 high", "wwwww|wwwww|kkr  |     |"),
];

#[test]
fn origins_add_up(rt: HostRuntime) -> Result<(), Fail> {
    assert_draws(&rt, rt.alloc(), None, &ORIGINS)
}

const CLIPS: [(&str, &str); 14] = [
    ("clip root 0 0 0 9", "same"),
    ("push root", "same"),
    ("high root ff0000", "same"),
    ("fill root 0 1 9 9 high", "wwwww|rwwww|rww  |     |"),
    ("clip root 0 2 1 2", "same"),
    ("high root 00ff00", "same"),
    ("fill root 0 0 9 9 high", "wwwww|rwwww|gww  |     |"),
    ("pop root", "same"),
    ("fill root 0 0 9 9 high", "kwwww|kwwww|kww  |     |"),
    ("clip root none", "same"),
    ("origin root 1 0", "same"),
    ("clip root 0 2 0 2", "same"),
    ("origin root 0 0", "same"),
    ("fill root 0 0 9 9 high", "kwwww|kwwww|kkw  |     |"),
];

#[test]
fn clips_of_all_states_apply(rt: HostRuntime) -> Result<(), Fail> {
    assert_draws(&rt, rt.alloc(), None, &CLIPS)
}

//! Writes a history, notes, a screen or a history with a screen over and over, or reads a history,
//! as the words on the command line say; and writes what came of it last. `bench/report` times it.
#![tactic(auto)]

mod board;
mod rounds;

use be_geom::NoMemory;
use be_outside::MemorySink;
use board::Board;
use rounds::{note_rounds, screen_rounds, told_rounds, whole_rounds};
use std::alloc::Global;
use std::io::{Read, Write};
use std::process::ExitCode;
use std::{env, io};

const USAGE: &str = "usage: write_reports history|read|notes COUNT\
    |(screen|whole) (plain|checkered) WIDTH HEIGHT ROUNDS";

/// A script and its history are read from standard input. Other words than those of the usage end
/// with status 2; a script or a history that is refused, and want of memory, with 1.
fn main(rt: HostRuntime) -> io::Result<ExitCode> {
    let mut words = Vec::new(rt.alloc());
    for word in env::args(&rt)?.skip(1) {
        words.push(word)?;
    }
    let Some((work, rounds)) = work_of(words.as_slice()) else {
        eprintln!(rt; "{USAGE}")?;
        return Ok(ExitCode::from(2));
    };
    let mut input = Vec::new(rt.alloc());
    rt.stdin().read_to_end(&mut input)?;
    match done(rt.alloc(), work, input.as_slice(), rounds) {
        Ok(sink) => {
            rt.stdout().write_all(sink.held())?;
            Ok(ExitCode::SUCCESS)
        }
        Err(fault) => {
            eprintln!(rt; "{fault}")?;
            Ok(ExitCode::FAILURE)
        }
    }
}

/// What is done in a round.
#[derive(Clone, Copy, Debug, PartialEq, Eq)]
enum Work {
    History,
    Read,
    Notes(u32),
    Screen(Shown),
    /// A history, and a screen behind it.
    Whole(Shown),
}

/// A screen's sizes, and what it shows.
#[derive(Clone, Copy, Debug, PartialEq, Eq)]
struct Shown {
    width: u16,
    height: u16,
    look: Look,
}

/// What a screen shows.
#[derive(Clone, Copy, Debug, PartialEq, Eq)]
pub enum Look {
    Plain,
    Checkered,
}

fn work_of(words: &[String]) -> Option<(Work, u32)> {
    let (rounds, words) = words.split_last()?;
    let rounds = rounds.parse::<u32>().ok()?;
    let (kind, numbers) = words.split_first()?;
    let work = match (kind.as_str(), numbers) {
        ("history", []) => Work::History,
        ("read", []) => Work::Read,
        ("notes", [count]) => Work::Notes(count.parse::<u32>().ok()?),
        ("screen", [look, width, height]) => Work::Screen(shown_by(look, width, height)?),
        ("whole", [look, width, height]) => Work::Whole(shown_by(look, width, height)?),
        _ => return None,
    };
    Some((work, rounds))
}

fn shown_by(look: &str, width: &str, height: &str) -> Option<Shown> {
    let look = match look {
        "plain" => Look::Plain,
        "checkered" => Look::Checkered,
        _ => return None,
    };
    Some(Shown {
        width: width.parse::<u16>().ok()?,
        height: height.parse::<u16>().ok()?,
        look,
    })
}

fn done(alloc: Global, work: Work, input: &[u8], rounds: u32) -> Result<MemorySink, NoMemory> {
    match work {
        Work::History => told_rounds(alloc, input, rounds, 0),
        Work::Read => told_rounds(alloc, input, 0, rounds),
        Work::Notes(count) => note_rounds(alloc, count, rounds),
        Work::Screen(shown) => {
            let board = Board::new(alloc, shown.width, shown.height, shown.look)?;
            screen_rounds(alloc, &board, rounds)
        }
        Work::Whole(shown) => {
            let board = Board::new(alloc, shown.width, shown.height, shown.look)?;
            whole_rounds(alloc, input, &board, rounds)
        }
    }
}

//! Draws on a view of a window over and over, as the words on the command line say, and writes how
//! many of the window's cells differ from a white one that doesn't wait, and a sum over all cells.
//! `bench/paint` times it.
#![tactic(auto)]

mod grid;
mod place;
mod rounds;
mod subject;

use be_geom::NoMemory;
use place::Setting;
use rounds::{Outcome, drawn};
use std::alloc::Global;
use std::process::ExitCode;
use std::{env, io};
use subject::Kind;

const USAGE: &str = "usage: draw_views fill|pattern|frame|line|text|image|photo|scroll|invalidate \
    SIDE alone|small|clip|views|session ROUNDS";

/// SIDE is 1 to 1000, and ROUNDS a number of 32 bits. Other words end with status 2, and want of
/// memory with 1.
fn main(rt: HostRuntime) -> io::Result<ExitCode> {
    let mut words = Vec::new(rt.alloc());
    for word in env::args(&rt)?.skip(1) {
        words.push(word)?;
    }
    let [kind, side, setting, rounds] = words.as_slice() else {
        return usage(&rt);
    };
    let (Some(kind), Some(side), Some(setting), Ok(rounds)) = (
        kind_of(kind.as_str()),
        side_of(side.as_str()),
        setting_of(setting.as_str()),
        rounds.parse::<u32>(),
    ) else {
        return usage(&rt);
    };
    match drawn(rt.alloc(), kind, side, setting, rounds) {
        Ok(Outcome { changed, sum }) => {
            println!(rt; "{changed} {sum}")?;
            Ok(ExitCode::SUCCESS)
        }
        Err(fault) => {
            eprintln!(rt; "{fault}")?;
            Ok(ExitCode::FAILURE)
        }
    }
}

fn usage(rt: &HostRuntime) -> io::Result<ExitCode> {
    eprintln!(rt; "{USAGE}")?;
    Ok(ExitCode::from(2))
}

fn side_of(word: &str) -> Option<i16> {
    match word.parse::<i16>() {
        Ok(side) if 1 <= side && side <= 1000 => Some(side),
        _ => None,
    }
}

fn kind_of(word: &str) -> Option<Kind> {
    match word {
        "fill" => Some(Kind::Fill),
        "pattern" => Some(Kind::Pattern),
        "frame" => Some(Kind::Frame),
        "line" => Some(Kind::Line),
        "text" => Some(Kind::Text),
        "image" => Some(Kind::Image),
        "photo" => Some(Kind::Photo),
        "scroll" => Some(Kind::Scroll),
        "invalidate" => Some(Kind::Invalidate),
        _ => None,
    }
}

fn setting_of(word: &str) -> Option<Setting> {
    match word {
        "alone" => Some(Setting::Alone),
        "small" => Some(Setting::Small),
        "clip" => Some(Setting::Clip),
        "views" => Some(Setting::Views),
        "session" => Some(Setting::Session),
        _ => None,
    }
}

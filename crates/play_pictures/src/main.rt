//! Plays the picture of standard input over and over on 256 by 256 white pixels, of a bitmap off
//! the screen or of a window, and writes how many pixels aren't white behind that; or only reads
//! it, or also copies its commands. `bench/picture` times it.
#![tactic(auto)]

mod rounds;
mod whole;
mod window;

use rounds::{Place, pixels_drawn};
use std::io::Read;
use std::process::ExitCode;
use std::{env, io};

const USAGE: &str = "usage: play_pictures off|window|copied|nowhere ROUNDS";

/// ROUNDS is a number of 32 bits. Other words end with status 2, and bytes that are no picture with
/// 1.
fn main(rt: HostRuntime) -> io::Result<ExitCode> {
    let mut words = Vec::new(rt.alloc());
    for word in env::args(&rt)?.skip(1) {
        words.push(word)?;
    }
    let [place, rounds] = words.as_slice() else {
        return usage(&rt);
    };
    let (Some(place), Ok(rounds)) = (place_of(place.as_str()), rounds.parse::<u32>()) else {
        return usage(&rt);
    };
    let mut bytes = Vec::new(rt.alloc());
    rt.stdin().read_to_end(&mut bytes)?;
    match pixels_drawn(rt.alloc(), bytes.as_slice(), place, rounds) {
        Ok(pixels) => {
            println!(rt; "{pixels}")?;
            Ok(ExitCode::SUCCESS)
        }
        Err(fault) => {
            eprintln!(rt; "{fault}")?;
            Ok(ExitCode::FAILURE)
        }
    }
}

fn usage(rt: &HostRuntime) -> io::Result<ExitCode> {
    eprintln!(rt; "{USAGE}")?;
    Ok(ExitCode::from(2))
}

fn place_of(word: &str) -> Option<Place> {
    match word {
        "off" => Some(Place::Off),
        "window" => Some(Place::Window),
        "copied" => Some(Place::Copied),
        "nowhere" => Some(Place::Nowhere),
        _ => None,
    }
}

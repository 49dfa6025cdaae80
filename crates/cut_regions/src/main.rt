//! Works on regions as a screen of windows does, and writes how many rectangles there were: stacks
//! of windows that are put together, joined and cut, columns against rows, a window that is
//! dragged, and pixels taken out and put back, as the words on the command line say. `bench/region`
//! times it.
#![tactic(auto)]

mod changes;
mod frames;
mod stacks;
mod work;

use std::process::ExitCode;
use std::{env, io};
use work::{Kind, Work, rectangles_of};

const USAGE: &str = "usage: cut_regions build|stacks|grid|drags|pixels SIZE COUNT ROUNDS";

/// The last number that SIZE and COUNT may be.
const MAX_NUMBER: u16 = 1000;

/// Other words than those of the usage end with status 2, and want of memory with 1.
fn main(rt: HostRuntime) -> io::Result<ExitCode> {
    let mut words = Vec::new(rt.alloc());
    for word in env::args(&rt)?.skip(1) {
        words.push(word)?;
    }
    let [kind, size, count, rounds] = words.as_slice() else {
        eprintln!(rt; "{USAGE}")?;
        return Ok(ExitCode::from(2));
    };
    let (Some(kind), Some(size), Some(count), Ok(rounds)) = (
        kind_of(kind.as_str()),
        number_of(size.as_str()),
        number_of(count.as_str()),
        rounds.parse::<u32>(),
    ) else {
        eprintln!(rt; "{USAGE}")?;
        return Ok(ExitCode::from(2));
    };
    match rectangles_of(
        rt.alloc(),
        Work {
            kind,
            size,
            count,
            rounds,
        },
    ) {
        Ok(rectangles) => {
            println!(rt; "{rectangles}")?;
            Ok(ExitCode::SUCCESS)
        }
        Err(fault) => {
            eprintln!(rt; "{fault}")?;
            Ok(ExitCode::FAILURE)
        }
    }
}

fn kind_of(word: &str) -> Option<Kind> {
    match word {
        "build" => Some(Kind::Build),
        "stacks" => Some(Kind::Stacks),
        "grid" => Some(Kind::Grid),
        "drags" => Some(Kind::Drags),
        "pixels" => Some(Kind::Pixels),
        _ => None,
    }
}

fn number_of(word: &str) -> Option<u16> {
    word.parse::<u16>()
        .ok()
        .filter(|number| *number <= MAX_NUMBER)
}

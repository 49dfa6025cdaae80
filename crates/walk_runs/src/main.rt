//! Goes through the runs of a shape, row by row and so many rounds, and writes how many pixels they
//! had in all: of a shape and a size, as the words on the command line say. `bench/shape` times it.
#![tactic(auto)]

mod walk;

use std::process::ExitCode;
use std::{env, io};
use walk::{pixels_of_rounds, shape_of};

const USAGE: &str = "usage: walk_runs fill|frame|steep|flat SIDE ROUNDS";

/// SIDE is 1 to 32767, and ROUNDS a number of 32 bits. Other words end with status 2.
fn main(rt: HostRuntime) -> io::Result<ExitCode> {
    let mut words = env::args(&rt)?.skip(1);
    let (Some(kind), Some(side), Some(rounds)) = (words.next(), words.next(), words.next()) else {
        return usage(&rt);
    };
    let (Ok(side), Ok(rounds)) = (side.parse::<i16>(), rounds.parse::<u32>()) else {
        return usage(&rt);
    };
    match shape_of(kind.as_str(), side) {
        Some(shape) => {
            println!(rt; "{}", pixels_of_rounds(&shape, rounds))?;
            Ok(ExitCode::SUCCESS)
        }
        None => usage(&rt),
    }
}

fn usage(rt: &HostRuntime) -> io::Result<ExitCode> {
    eprintln!(rt; "{USAGE}")?;
    Ok(ExitCode::from(2))
}

//! Runs the small world on a thread for each activity, or on one thread alone, so many times, and
//! writes how many steps that made: so many producers, so many consumers, so many units for each
//! producer, so many that the first consumer has at the start, and so many rounds of work for each
//! step, as the words on the command line say. `bench/workers` times it.
#![tactic(auto)]

mod runs;
mod stirs;
mod words;

use runs::run_often;
use std::process::ExitCode;
use std::{env, io};
use words::read_words;

const USAGE: &str = "usage: run_workers threads|one PRODUCERS CONSUMERS UNITS STORED WORK RUNS";

/// The first two numbers are of 16 bits and the others of 32. Other words end with status 2, as do
/// no consumers and more than 128 activities, and want of memory with 1.
fn main(rt: HostRuntime) -> io::Result<ExitCode> {
    let mut words = Vec::new(rt.alloc());
    for word in env::args(&rt)?.skip(1) {
        words.push(word)?;
    }
    let Some(orders) = read_words(words.as_slice()) else {
        eprintln!(rt; "{USAGE}")?;
        return Ok(ExitCode::from(2));
    };
    match run_often(&rt, rt.alloc(), orders) {
        Ok(made) => {
            println!(rt; "{made}")?;
            Ok(ExitCode::SUCCESS)
        }
        Err(fault) => {
            eprintln!(rt; "{fault}")?;
            Ok(ExitCode::FAILURE)
        }
    }
}

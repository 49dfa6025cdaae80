//! Runs the small world on one thread, so many times, and writes how many steps that made: so many
//! producers, so many consumers, so many units for each producer, and a seed, as the words on the
//! command line say. `bench/serial` times it.
#![tactic(auto)]

mod rounds;

use rounds::run_rounds;
use std::process::ExitCode;
use std::{env, io};

const USAGE: &str = "usage: run_small PRODUCERS CONSUMERS UNITS SEED ROUNDS";

/// The words are numbers, the first two of 16 bits and the others of 32. Other words end with
/// status 2, as do no consumers, and want of memory with 1.
fn main(rt: HostRuntime) -> io::Result<ExitCode> {
    let mut words = env::args(&rt)?.skip(1).map(|word| word.parse::<u32>().ok());
    let (Some(Some(producers)), Some(Some(consumers)), Some(Some(each))) = (
        words.next(),
        words.next(),
        words.next(),
    ) else {
        eprintln!(rt; "{USAGE}")?;
        return Ok(ExitCode::from(2));
    };
    let (Some(Some(seed)), Some(Some(rounds))) = (words.next(), words.next()) else {
        eprintln!(rt; "{USAGE}")?;
        return Ok(ExitCode::from(2));
    };
    let (Ok(producers), Ok(consumers)) = (u16::try_from(producers), u16::try_from(consumers)) else {
        eprintln!(rt; "{USAGE}")?;
        return Ok(ExitCode::from(2));
    };
    if consumers == 0 {
        eprintln!(rt; "{USAGE}")?;
        return Ok(ExitCode::from(2));
    }
    match run_rounds(rt.alloc(), producers, consumers, each, seed, rounds) {
        Ok(made) => {
            println!(rt; "{made}")?;
            Ok(ExitCode::SUCCESS)
        }
        Err(fault) => {
            eprintln!(rt; "{fault}")?;
            Ok(ExitCode::FAILURE)
        }
    }
}

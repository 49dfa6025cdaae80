//! Makes transfers between counters on several threads, and says how many there are in the history.
//! `bench/hall` times it.
#![tactic(auto)]

mod counters;
#[cfg(test)]
mod tests;
mod transfer;
mod turns;

use counters::Counters;
use std::process::ExitCode;
use std::{env, io};
use turns::time;

const USAGE: &str = "usage: hall_counters THREADS own|common COMMITS ROUNDS";

/// The words are the number of threads, 1 to 4, whether each has counters of its own or all have
/// one in common, how many transfers each makes, and how many rounds of work each of these takes.
/// Other words end with status 2, and want of memory with 1.
fn main(rt: HostRuntime) -> io::Result<ExitCode> {
    let mut words = Vec::new(rt.alloc());
    for word in env::args(&rt)?.skip(1) {
        words.push(word)?;
    }
    let [threads, place, commits, rounds] = words.as_slice() else {
        eprintln!(rt; "{USAGE}")?;
        return Ok(ExitCode::from(2));
    };
    let (Ok(threads), Ok(commits), Ok(rounds)) = (
        threads.parse::<u32>(),
        commits.parse::<u32>(),
        rounds.parse::<u32>(),
    ) else {
        eprintln!(rt; "{USAGE}")?;
        return Ok(ExitCode::from(2));
    };
    let rules = Counters { places: 12, rounds };
    match time(
        &rt,
        rt.alloc(),
        rules,
        threads as usize,
        place.as_str() == "own",
        commits,
    ) {
        Ok(made) => {
            println!(rt; "{made} commits")?;
            Ok(ExitCode::SUCCESS)
        }
        Err(_) => Ok(ExitCode::FAILURE),
    }
}

//! Passes letters through a port that is full but for one, and writes the number of the last one:
//! so many letters, of so many bytes, so many rounds, as the words on the command line say.
//! `bench/port` times it.
#![tactic(auto)]

mod passing;

use passing::pass_rounds;
use std::process::ExitCode;
use std::{env, io};

const USAGE: &str = "usage: pass_letters LETTERS BYTES ROUNDS";

/// The words are numbers of 32 bits. Other words end with status 2, and want of memory with 1.
fn main(rt: HostRuntime) -> io::Result<ExitCode> {
    let mut words = env::args(&rt)?.skip(1).map(|word| word.parse::<u32>().ok());
    let (Some(Some(letters)), Some(Some(bytes)), Some(Some(rounds))) = (
        words.next(),
        words.next(),
        words.next(),
    ) else {
        eprintln!(rt; "{USAGE}")?;
        return Ok(ExitCode::from(2));
    };
    match pass_rounds(rt.alloc(), letters, bytes, rounds) {
        Ok(last) => {
            println!(rt; "{last}")?;
            Ok(ExitCode::SUCCESS)
        }
        Err(fault) => {
            eprintln!(rt; "{fault}")?;
            Ok(ExitCode::FAILURE)
        }
    }
}

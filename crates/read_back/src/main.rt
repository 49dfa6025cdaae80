//! Reads a flattened message from standard input, reads and writes it as often as the word on the
//! command line says, and writes what comes of it, which is the same again. `bench/flat` times it.
#![tactic(auto)]

ghost use Rattle.std.specs.Prelude.{◌<◌, IfSome};

mod rounds;
#[cfg(test)]
mod tests;

use rounds::read_back;
use std::io::{Read, Write};
use std::process::ExitCode;
use std::{env, io};

const USAGE: &str = "usage: read_back ROUNDS";

/// The one word is a number of rounds, 1 to 4294967295, without sign and leading zeros. Other words
/// end with status 2, bytes that are no message with 1.
fn main(rt: HostRuntime) -> io::Result<ExitCode> {
    let mut words = env::args(&rt)?.skip(1);
    let (Some(word), None) = (words.next(), words.next()) else {
        return usage(&rt);
    };
    let Some(rounds) = rounds_of(&word) else {
        return usage(&rt);
    };
    let mut bytes = Vec::new(rt.alloc());
    rt.stdin().read_to_end(&mut bytes)?;
    match read_back(rt.alloc(), bytes.as_slice(), rounds) {
        Ok(bytes) => {
            rt.stdout().write_all(bytes.as_slice())?;
            Ok(ExitCode::SUCCESS)
        }
        Err(error) => {
            eprintln!(rt; "{error}")?;
            Ok(ExitCode::FAILURE)
        }
    }
}

fn usage(rt: &HostRuntime) -> io::Result<ExitCode> {
    eprintln!(rt; "{USAGE}")?;
    Ok(ExitCode::from(2))
}

/// The number that the word is. One that begins with a sign or a zero is none.
fn rounds_of(word: &str) -> Option<u32>
    ensures { IfSome result (λ rounds. 0 < rounds) }
{
    match word.as_bytes() {
        [b'1'..=b'9', ..] => word.parse().ok().filter(|rounds| *rounds > 0),
        _ => None,
    }
}

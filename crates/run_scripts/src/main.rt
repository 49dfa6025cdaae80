//! Reads standard input as a script, runs it on one thread with the seed that the word on the
//! command line says, and writes its history and the screen, without traces. `bench/rows` compares
//! what it writes.
#![tactic(auto)]

mod running;
mod shown;
#[cfg(test)]
mod tests;

use be_reader::ScriptFault;
use running::{Fault, history_of};
use std::io::{Read, Write};
use std::process::ExitCode;
use std::{env, io};

const USAGE: &str = "usage: run_scripts SEED";

/// The one word is a number of 32 bits. Other words end with status 2, a script that is refused
/// with 3, and no memory with 1.
fn main(rt: HostRuntime) -> io::Result<ExitCode> {
    let mut words = env::args(&rt)?.skip(1);
    let (Some(word), None) = (words.next(), words.next()) else {
        return usage(&rt);
    };
    let Ok(seed) = word.parse::<u32>() else {
        return usage(&rt);
    };
    let mut bytes = Vec::new(rt.alloc());
    rt.stdin().read_to_end(&mut bytes)?;
    match history_of(rt.alloc(), bytes.as_slice(), seed) {
        Ok(text) => {
            rt.stdout().write_all(text.as_slice())?;
            Ok(ExitCode::SUCCESS)
        }
        Err(Fault::Script(ScriptFault::At { line, reason })) => {
            println!(rt; "script line {line}: {reason:?}")?;
            Ok(ExitCode::from(3))
        }
        Err(Fault::Script(ScriptFault::NoMemory) | Fault::NoMemory) => {
            eprintln!(rt; "{}", ScriptFault::NoMemory)?;
            Ok(ExitCode::FAILURE)
        }
    }
}

fn usage(rt: &HostRuntime) -> io::Result<ExitCode> {
    eprintln!(rt; "{USAGE}")?;
    Ok(ExitCode::from(2))
}

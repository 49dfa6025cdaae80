//! Reads standard input as a script, as often as the word on the command line says, and then writes
//! what it costs, or why it isn't one. `bench/reader` times it.
#![tactic(auto)]

mod verdict;

use be_reader::ScriptFault;
use std::io::Read;
use std::process::ExitCode;
use std::{env, io};
use verdict::work_after;

const USAGE: &str = "usage: read_scripts ROUNDS";

/// The one word is a number of 32 bits. Other words end with status 2, a script that is refused
/// with 3, and no memory with 1.
fn main(rt: HostRuntime) -> io::Result<ExitCode> {
    let mut words = env::args(&rt)?.skip(1);
    let (Some(word), None) = (words.next(), words.next()) else {
        return usage(&rt);
    };
    let Ok(rounds) = word.parse::<u32>() else {
        return usage(&rt);
    };
    let mut bytes = Vec::new(rt.alloc());
    rt.stdin().read_to_end(&mut bytes)?;
    match work_after(rt.alloc(), bytes.as_slice(), rounds) {
        Ok(work) => {
            println!(rt; "work {work}")?;
            Ok(ExitCode::SUCCESS)
        }
        Err(ScriptFault::At { line, reason }) => {
            println!(rt; "script line {line}: {reason:?}")?;
            Ok(ExitCode::from(3))
        }
        Err(ScriptFault::NoMemory) => {
            eprintln!(rt; "{}", ScriptFault::NoMemory)?;
            Ok(ExitCode::FAILURE)
        }
    }
}

fn usage(rt: &HostRuntime) -> io::Result<ExitCode> {
    eprintln!(rt; "{USAGE}")?;
    Ok(ExitCode::from(2))
}

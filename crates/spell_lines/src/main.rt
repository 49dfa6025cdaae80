//! Reads the lines of standard input as commands, as often as the word on the command line says,
//! and then writes each as it is spelt. `bench/commands` times it.
#![tactic(auto)]

mod lines;

use lines::spelt_after;
use std::io::{Read, Write};
use std::process::ExitCode;
use std::{env, io};

const USAGE: &str = "usage: spell_lines ROUNDS";

/// The one word is a number of 32 bits. Other words end with status 2, and a line that is no
/// command with 1. Names are the root view, a view `v`, a bitmap `b` and a window `w`.
fn main(rt: HostRuntime) -> io::Result<ExitCode> {
    let mut words = env::args(&rt)?.skip(1);
    let (Some(word), None) = (words.next(), words.next()) else {
        return usage(&rt);
    };
    let Ok(rounds) = word.parse::<u32>() else {
        return usage(&rt);
    };
    let mut bytes = Vec::new(rt.alloc());
    rt.stdin().read_to_end(&mut bytes)?;
    match spelt_after(rt.alloc(), bytes.as_slice(), rounds) {
        Ok(lines) => {
            rt.stdout().write_all(lines.as_slice())?;
            Ok(ExitCode::SUCCESS)
        }
        Err(fault) => {
            eprintln!(rt; "{fault}")?;
            Ok(ExitCode::FAILURE)
        }
    }
}

fn usage(rt: &HostRuntime) -> io::Result<ExitCode> {
    eprintln!(rt; "{USAGE}")?;
    Ok(ExitCode::from(2))
}

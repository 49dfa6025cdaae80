//! Changes the windows of a screen, as the words on the command line say, and writes how many
//! changes were made, and a sum of all cells that the windows show then. `bench/desk` times it.
#![tactic(auto)]

mod fault;
mod rounds;
mod sum;
mod windows;

use rounds::{Kind, rounds};
use std::process::ExitCode;
use std::{env, io};
use sum::sum_of;

const USAGE: &str = "usage: change_windows show|front|move|size|apart|drag WINDOWS ROUNDS";

/// Other words than those of the usage end with status 2, and whatever hinders a change with 1.
fn main(rt: HostRuntime) -> io::Result<ExitCode> {
    let mut words = Vec::new(rt.alloc());
    for word in env::args(&rt)?.skip(1) {
        words.push(word)?;
    }
    let [kind, windows, count] = words.as_slice() else {
        eprintln!(rt; "{USAGE}")?;
        return Ok(ExitCode::from(2));
    };
    let (Some(kind), Ok(windows), Ok(count)) = (
        kind_of(kind.as_str()),
        windows.parse::<u8>(),
        count.parse::<u32>(),
    ) else {
        eprintln!(rt; "{USAGE}")?;
        return Ok(ExitCode::from(2));
    };
    match rounds(rt.alloc(), kind, windows, count) {
        Ok((changes, screen)) => {
            let sum = sum_of(&screen, windows);
            println!(rt; "{changes} {sum}")?;
            Ok(ExitCode::SUCCESS)
        }
        Err(fault) => {
            eprintln!(rt; "{fault}")?;
            Ok(ExitCode::FAILURE)
        }
    }
}

fn kind_of(word: &str) -> Option<Kind> {
    match word {
        "show" => Some(Kind::Show),
        "front" => Some(Kind::Front),
        "move" => Some(Kind::Move),
        "size" => Some(Kind::Size),
        "apart" => Some(Kind::Apart),
        "drag" => Some(Kind::Drag),
        _ => None,
    }
}

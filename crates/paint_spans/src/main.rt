//! Paints slices of cells in each mode, and moves, cuts and fills the pixels of a window, as the
//! words on the command line say; and writes a sum that tells the cells at the end. `bench/modes`
//! and `bench/span` time it.
#![tactic(auto)]

mod slices;
mod spans;

use be_color::Mode;
use be_geom::NoMemory;
use slices::{bit_rounds, mode_rounds};
use spans::{cut_rounds, fill_rounds, move_rounds};
use std::alloc::Global;
use std::process::ExitCode;
use std::{env, io};

const USAGE: &str = "usage: paint_spans MODE|bits|move|cut|fill ROUNDS";

/// Other words than those of the usage end with status 2, and want of memory with 1.
fn main(rt: HostRuntime) -> io::Result<ExitCode> {
    let mut words = Vec::new(rt.alloc());
    for word in env::args(&rt)?.skip(1) {
        words.push(word)?;
    }
    let [kind, rounds] = words.as_slice() else {
        eprintln!(rt; "{USAGE}")?;
        return Ok(ExitCode::from(2));
    };
    let (Some(kind), Ok(rounds)) = (kind_of(kind.as_str()), rounds.parse::<u32>()) else {
        eprintln!(rt; "{USAGE}")?;
        return Ok(ExitCode::from(2));
    };
    match sum_after(rt.alloc(), kind, rounds) {
        Ok(sum) => {
            println!(rt; "{sum}")?;
            Ok(ExitCode::SUCCESS)
        }
        Err(fault) => {
            eprintln!(rt; "{fault}")?;
            Ok(ExitCode::FAILURE)
        }
    }
}

/// What is done in a round.
#[derive(Clone, Copy, Debug, PartialEq, Eq)]
enum Kind {
    /// A slice is painted in a mode.
    Slice(Mode),
    /// A slice is painted by the bits of a byte.
    Bits,
    /// A window is moved by one pixel.
    Move,
    /// A window is cut by ten others.
    Cut,
    /// A window is filled row by row.
    Fill,
}

fn kind_of(word: &str) -> Option<Kind> {
    match word {
        "copy" => Some(Kind::Slice(Mode::Copy)),
        "over" => Some(Kind::Slice(Mode::Over)),
        "erase" => Some(Kind::Slice(Mode::Erase)),
        "invert" => Some(Kind::Slice(Mode::Invert)),
        "add" => Some(Kind::Slice(Mode::Add)),
        "subtract" => Some(Kind::Slice(Mode::Subtract)),
        "blend" => Some(Kind::Slice(Mode::Blend)),
        "min" => Some(Kind::Slice(Mode::Min)),
        "max" => Some(Kind::Slice(Mode::Max)),
        "select" => Some(Kind::Slice(Mode::Select)),
        "bits" => Some(Kind::Bits),
        "move" => Some(Kind::Move),
        "cut" => Some(Kind::Cut),
        "fill" => Some(Kind::Fill),
        _ => None,
    }
}

/// Does the rounds, and gives the sum of the cells at the end.
fn sum_after(alloc: Global, kind: Kind, rounds: u32) -> Result<u64, NoMemory> {
    match kind {
        Kind::Slice(mode) => mode_rounds(alloc, mode, rounds),
        Kind::Bits => bit_rounds(alloc, rounds),
        Kind::Move => move_rounds(alloc, rounds),
        Kind::Cut => cut_rounds(alloc, rounds),
        Kind::Fill => fill_rounds(alloc, rounds),
    }
}

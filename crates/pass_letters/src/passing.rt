ghost use Rattle.std.specs.Prelude.{◌≡◌, ◌+◌, ◌-◌, ◌*◌, ◌^◌, ◌<◌, IfOk, OnOk};

use be_flat::Bytes;
use be_geom::NoMemory;
use be_message::Target;
use be_port::{Duty, Letter, Port, Sender};
use std::alloc::{AllocError, Global};
use thiserror::Error;

/// How many letters the port holds.
const CAPACITY: u8 = 100;

/// Why not all letters were passed.
#[derive(Clone, Copy, Debug, PartialEq, Eq, Error)]
pub enum PassFault {
    /// The port took or gave no letter, or its numbers are at an end.
    #[error("the port took or gave no letter")]
    Stopped,
    /// There was no memory left.
    #[error("no memory")]
    NoMemory,
}

impl From<NoMemory> for PassFault {
    fn from(_error: NoMemory) -> PassFault {
        PassFault::NoMemory
    }
}

impl From<AllocError> for PassFault {
    fn from(_error: AllocError) -> PassFault {
        PassFault::NoMemory
    }
}

/// Passes letters through one port in each of the rounds, and gives the number of the last one.
pub fn pass_rounds(alloc: Global, letters: u32, bytes: u32, rounds: u32) -> Result<u64, PassFault>
    ensures { IfOk result (λ last. last ≡ 99 + letters * rounds) }
{
    let mut port = filled_port(alloc, bytes)?;
    let mut letter = letter_of(alloc, bytes)?;
    let mut last = u64::from(CAPACITY) - 1;
    for _round in 0..rounds {
        if u64::MAX - last <= u64::from(letters) {
            return Err(PassFault::Stopped);
        }
        letter = pass(&mut port, letter, letters)?;
        last += u64::from(letters);
    }
    Ok(last)
}

/// A port that has room for one more letter.
fn filled_port(alloc: Global, bytes: u32) -> Result<Port, PassFault>
    ensures { IfOk result (λ port. port.last ≡ 99) }
{
    let mut port = Port::new(alloc, CAPACITY)?;
    for _place in 1..CAPACITY {
        match port.post(letter_of(alloc, bytes)?) {
            Ok(_) => {}
            Err(_) => return Err(PassFault::Stopped),
        }
    }
    Ok(port)
}

/// Posts a letter and takes one, so many times; the letter that is taken last is left.
fn pass(port: &mut Port, mut letter: Letter, letters: u32) -> Result<Letter, PassFault>
    requires { port.old.last + letters < 2 ^ 64 - 1 }
    ensures { OnOk result (port.new.last ≡ port.old.last + letters) }
{
    for _letter in 0..letters {
        letter = pass_one(port, letter)?;
    }
    Ok(letter)
}

fn pass_one(port: &mut Port, letter: Letter) -> Result<Letter, PassFault>
    requires { port.old.last < 2 ^ 64 - 1 }
    ensures { OnOk result (port.new.last ≡ port.old.last + 1) }
{
    match port.post(letter) {
        Ok(_) => port.take().ok_or(PassFault::Stopped),
        Err(_) => Err(PassFault::Stopped),
    }
}

fn letter_of(alloc: Global, bytes: u32) -> Result<Letter, AllocError> {
    Ok(Letter {
        number: 0,
        sender: Sender::Input,
        target: Target::Window,
        hop: 0,
        duty: Duty::Free,
        notice: false,
        bytes: Bytes::from_vec(vec![in alloc; 7; bytes as usize]?),
    })
}

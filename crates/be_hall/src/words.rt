//! Which word of the table says what.
//!
//! Each eighth word is used: a line of the processor's cache has 64 bytes, and threads that work on
//! places of their own would wait for each other where their lock words share one with another's,
//! or with the clock.
ghost use Rattle.std.specs.Prelude.{◌≡◌, ◌+◌, ◌*◌};

/// How many entries there are.
pub(crate) const CLOCK: usize = 0;

/// 1 once a pass has raised stop.
pub(crate) const STOP: usize = 8;

/// The lock of a place: 0 while it is free, 1 while a pass has it, and 2 while another may sleep
/// for it.
pub(crate) fn lock_of(place: u32) -> usize
    ensures { result ≡ 8 * place + 16 }
{
    place as usize * 8 + 16
}

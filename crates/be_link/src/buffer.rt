ghost use Rattle.std.specs.Prelude.{◌≡◌, ◌+◌, ◌-◌, ◌^◌, ◌<◌, ◌↔◌, true, length, option_map};
ghost use Rattle.std.specs.Prelude.{slice_get, IsErr, IfOk, IfErr, OnOk, OnErr};
ghost use Rattle.be_link.specs.Queues.{empty_buffer, is_full, numbered, with_command};
ghost use Rattle.be_link.specs.Queues.{without_oldest, IsBuffer};

use crate::fault::BufferFull;
use be_command::Command;
use be_geom::NoMemory;
use circular_buffer::HeapCircularBuffer;
use std::alloc::Global;
use std::marker::Model;

/// How many commands a buffer holds.
pub(crate) const MOST: usize = 32;

/// The commands that a looper made and didn't flush yet, each with its number among its window's,
/// from 1.
#[derive(Debug, Drop)]
pub struct Buffer {
    pub(crate) ring: HeapCircularBuffer<(u64, Command)>,
    /// The number of the last command that was made.
    pub(crate) made: u64,
}

impl Model for Buffer {
    ghost use Rattle.std.specs.Prelude.{◌≡◌, map};
    ghost use Rattle.be_link.specs.Queues as queues;

    ghost Value = { queues.Buffer };

    ghost view = { λ b. record { made = b.made; commands = map queues.numbered b.ring.items } };

    ghost invariant = { λ b. (b.ring.capacity ≡ 32)
        × queues.IsBuffer record { made = b.made; commands = map queues.numbered b.ring.items } };
}

impl Buffer {
    /// A buffer of a window that has made no command.
    pub fn new(alloc: Global) -> Result<Buffer, NoMemory>
        ensures { IfOk result (λ buffer. buffer ≡ empty_buffer) }
    {
        Ok(Buffer {
            ring: HeapCircularBuffer::with_capacity(alloc, MOST)?,
            made: 0,
        })
    }

    /// Puts a command behind the others, and gives its number.
    pub fn put(&mut self, command: Command) -> Result<u64, BufferFull>
        requires { self.old.made < 2 ^ 64 - 1 }
        ensures full { IsErr result ↔ (is_full self.old ≡ true) }
        ensures number { IfOk result (λ number. number ≡ self.old.made + 1) }
        ensures put { OnOk result (self.new ≡ with_command command self.old) }
        ensures err { OnErr result (self.new ≡ self.old) }
        ensures back { IfErr result (λ fault. fault.command ≡ command) }
    {
        if self.ring.len() >= MOST {
            return Err(BufferFull { command });
        }
        self.made += 1;
        let _ = self.ring.push_back((self.made, command));
        Ok(self.made)
    }

    /// Takes the oldest command out, with its number, on its way to the link. None where there is
    /// none.
    pub fn pop(&mut self) -> Option<(u64, Command)>
        ensures command { option_map numbered result ≡ slice_get self.old.commands 0 }
        ensures rest { self.new ≡ without_oldest self.old }
    {
        self.ring.pop_front()
    }

    /// How many commands are in the buffer.
    pub fn len(&self) -> u32
        ensures len { result ≡ length self.now.commands }
        ensures whole { IsBuffer self.now }
    {
        self.ring.len() as u32
    }

    /// The number of the last command that was made; 0 before the first.
    pub fn last_number(&self) -> u64
        ensures { result ≡ self.now.made }
    {
        self.made
    }

    /// The number that the next command gets.
    pub fn next_number(&self) -> u64
        requires { self.now.made < 2 ^ 64 - 1 }
        ensures { result ≡ self.now.made + 1 }
    {
        self.made + 1
    }
}

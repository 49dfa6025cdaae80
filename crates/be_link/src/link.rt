ghost use Rattle.std.specs.Prelude.{◌≡◌, ◌≤◌, ◌<◌, ◌↔◌, ◌++◌, ◌∷◌, false, [], length, slice_get};
ghost use Rattle.std.specs.Prelude.{option_map, IsErr, IfOk, OnOk, OnErr};
ghost use Rattle.be_link.specs.Queues.{numbered, fits, lengthened, emptied, shortened};

use crate::buffer::Buffer;
use crate::fault::LinkFull;
use crate::ring::move_all;
use be_command::Command;
use be_geom::NoMemory;
use circular_buffer::HeapCircularBuffer;
use std::alloc::Global;
use std::marker::Model;

/// How many commands a link holds.
const MOST: usize = 256;

/// The commands of a window that its twin has still to execute, with the numbers that they had in
/// the buffer.
#[derive(Debug, Drop)]
pub struct Link {
    ring: HeapCircularBuffer<(u64, Command)>,
}

impl Model for Link {
    ghost use Rattle.std.specs.Prelude.{◌≡◌, List, map};
    ghost use Rattle.be_link.specs.Queues.{Numbered, numbered};

    ghost Value = { List Numbered };

    ghost view = { λ link. map numbered link.ring.items };

    ghost invariant = { λ link. link.ring.capacity ≡ 256 };
}

impl Link {
    /// A link without commands.
    pub fn new(alloc: Global) -> Result<Link, NoMemory>
        ensures { IfOk result (λ link. link ≡ []) }
    {
        Ok(Link {
            ring: HeapCircularBuffer::with_capacity(alloc, MOST)?,
        })
    }

    /// Takes over all commands of a buffer in their order, or none where there is no room for all:
    /// `BView::Flush`. Gives how many went over.
    pub fn append(&mut self, buffer: &mut Buffer) -> Result<u32, LinkFull>
        ensures full { IsErr result ↔ (fits buffer.old self.old ≡ false) }
        ensures count { IfOk result (λ count. count ≡ length buffer.old.commands) }
        ensures over { OnOk result (self.new ≡ lengthened buffer.old self.old) }
        ensures flushed { OnOk result (buffer.new ≡ emptied buffer.old) }
        ensures err { OnErr result ((self.new ≡ self.old) × (buffer.new ≡ buffer.old)) }
    {
        let count = buffer.len();
        if count + self.len() > MOST as u32 {
            return Err(LinkFull);
        }
        move_all(&mut buffer.ring, &mut self.ring);
        Ok(count)
    }

    /// Puts a command behind the others, with the number that it had in the buffer.
    pub fn push(&mut self, number: u64, command: Command)
        requires { length self.old < 256 }
        ensures { self.new ≡ self.old ++ numbered (number, command) ∷ [] }
    {
        let _ = self.ring.push_back((number, command));
    }

    /// How many commands are in the link.
    pub fn len(&self) -> u32
        ensures len { result ≡ length self.now }
        ensures few { length self.now ≤ 256 }
    {
        self.ring.len() as u32
    }

    /// Takes the oldest command, with its number. None where there is none.
    pub fn pop(&mut self) -> Option<(u64, Command)>
        ensures command { option_map numbered result ≡ slice_get self.old 0 }
        ensures rest { self.new ≡ shortened self.old }
    {
        self.ring.pop_front()
    }

    /// The oldest command, with its number.
    pub fn front(&self) -> Option<(u64, &Command)>
        ensures { option_map (λ pair. numbered (pair.0, pair.1.now)) result ≡ slice_get self.now 0 }
    {
        let (number, command) = self.ring.front()?;
        Some((*number, command))
    }
}

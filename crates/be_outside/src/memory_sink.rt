ghost use Rattle.std.specs.Prelude.{◌≡◌, ◌<◌, ◌≤◌, ◌+◌, ◌-◌, ◌↔◌, ◌⊎◌, ◌++◌, [], length, take};
ghost use Rattle.std.specs.Prelude.{vec_len, vec_capacity, Some, IsErr, IfOk, IfErr, OnOk, OnErr};
ghost use Rattle.std.specs.Prelude.{Contains};
ghost use Rattle.be_outside.specs.Faults.{one_more, FaultsRose};
ghost use Rattle.be_outside.specs.InMemory.{Store, half_within};
ghost use Rattle.be_outside.specs.Telling.{TakesPrefix};

use crate::calls::Calls;
use crate::{Failed, Sink};
use std::alloc::Global;
use std::marker::Model;
use thiserror::Error;

/// Why no sink was made. It hands the list of failing calls back.
#[derive(Debug, Drop, Error)]
pub enum SinkFault {
    #[error("no memory")]
    NoMemory(Vec<u64>),
}

/// A sink of bytes in memory, which fails where a test wants it to, and where a piece doesn't fit.
/// Of a piece that is to fail it takes the first half. It tells its bytes. A call takes no memory.
#[derive(Drop)]
pub struct MemorySink {
    bytes: Vec<u8>,
    room: usize,
    calls: Calls,
}

impl Model for MemorySink {
    ghost Value = { Store };

    ghost view = { λ s. record {
      held = s.bytes.items;
      room = s.room;
      failing = s.calls.failing.items;
      calls = s.calls.made;
      faults = s.calls.faults;
    } };

    ghost invariant = { λ s. vec_len s.bytes + s.room ≤ vec_capacity s.bytes };
}

impl MemorySink {
    /// Takes the memory for `room` bytes. Call k, counted from 0, fails where k is in `failing`.
    pub fn new(alloc: Global, room: usize, failing: Vec<u64>) -> Result<MemorySink, SinkFault>
        ensures ok { IfOk result (λ sink. sink
            ≡ record { held = []; room = room; failing = failing.items; calls = 0; faults = 0 }) }
        ensures err { IfErr result (λ fault. fault ≡ SinkFault.NoMemory failing) }
    {
        match Vec::with_capacity(alloc, room) {
            Ok(bytes) => Ok(MemorySink {
                bytes,
                room,
                calls: Calls::new(failing),
            }),
            Err(_) => Err(SinkFault::NoMemory(failing)),
        }
    }

    fn append(&mut self, piece: &[u8])
        requires { length piece.now ≤ self.old.room }
        ensures { self.new ≡ record self.old {
          held = self.old.held ++ piece.now;
          room = self.old.room - length piece.now;
        } }
    {
        self.bytes.extend_from_slice(piece).unwrap();
        self.room -= piece.len();
    }

    /// What was put into it.
    pub fn held(&self) -> &[u8]
        ensures { result.now ≡ self.now.held }
    {
        &self.bytes
    }
}

impl Sink for MemorySink {
    ghost held = { λ s. Some s.held };

    ghost faults = { λ s. s.faults };

    fn put(&mut self, piece: &[u8]) -> Result<(), Failed>
        ensures fails { IsErr result
            ↔ (Contains self.old.failing self.old.calls ⊎ (self.old.room < length piece.now)) }
        ensures ok { OnOk result (self.new ≡ record self.old {
          held = self.old.held ++ piece.now;
          room = self.old.room - length piece.now;
          calls = one_more self.old.calls;
        }) }
        ensures to_fail { Contains self.old.failing self.old.calls → self.new ≡ record self.old {
          held = self.old.held ++ take (half_within self.old.room piece.now) piece.now;
          room = self.old.room - half_within self.old.room piece.now;
          calls = one_more self.old.calls;
          faults = one_more self.old.faults;
        } }
        ensures full { ¬ Contains self.old.failing self.old.calls → self.old.room < length piece.now
            → self.new
            ≡ record self.old {
              calls = one_more self.old.calls;
              faults = one_more self.old.faults;
            } }
        ensures prefix { OnErr result
            (TakesPrefix (Some self.old.held) (Some self.new.held) piece.now) }
        ensures failed { OnErr result (FaultsRose self.old.faults self.new.faults) }
        ensures never_falls { self.old.faults ≤ self.new.faults }
    {
        if self.calls.begin() {
            self.append(&piece[..(piece.len() / 2).min(self.room)]);
            return Err(self.calls.fail());
        }
        if self.room < piece.len() {
            return Err(self.calls.fail());
        }
        self.append(piece);
        Ok(())
    }
}

ghost use Rattle.std.specs.Prelude.{◌≡◌, ◌≤◌, ℕ, None, OnOk, OnErr, is_ok, take, if◌then◌else◌};
ghost use Rattle.std.specs.Io.KnownBytes.{Appends};
ghost use Rattle.be_outside.specs.Faults.{one_more};
ghost use Rattle.be_outside.specs.Edge.{Edge};

use crate::{Failed, Sink};
use std::io::Write;
use std::marker::Model;

/// A sink over a writer. A fault is each error of the writer's, and each call in which it takes
/// nothing. The sink doesn't tell its bytes, and doesn't flush: lend it a writer that holds bytes
/// back, and flush that afterwards.
#[derive(Drop)]
pub struct WriterSink<W: Write> {
    writer: W,
    faults: u64,
}

impl<W: Write> Model for WriterSink<W> {
    ghost Value = { Edge W };

    ghost view = { λ s. record { inner = s.writer; faults = s.faults } };
}

impl<W: Write> WriterSink<W> {
    /// A sink that hands all on to the writer.
    pub fn new(writer: W) -> WriterSink<W>
        ensures { result ≡ record { inner = writer; faults = 0 } }
    {
        WriterSink { writer, faults: 0 }
    }
}

impl<W: Write> Sink for WriterSink<W> {
    ghost held = { λ _. None };

    ghost faults = { λ s. s.faults };

    fn put(&mut self, piece: &[u8]) -> Result<(), Failed>
        ensures passes_on { OnOk result
            (Appends (W.contents self.old.inner) (W.contents self.new.inner) piece.now) }
        ensures passes_prefix { OnErr result ((n : ℕ)
            × Appends (W.contents self.old.inner) (W.contents self.new.inner) (take n piece.now)) }
        ensures counts { self.new.faults
            ≡ (if is_ok result then self.old.faults else one_more self.old.faults) }
        ensures never_falls { self.old.faults ≤ self.new.faults }
    {
        let mut done = 0;
        while done < piece.len() {
            match self.writer.write(&piece[done..]) {
                Ok(count) if count > 0 => done += count,
                _ => {
                    self.faults = self.faults.saturating_add(1);
                    return Err(Failed);
                }
            }
        }
        Ok(())
    }
}

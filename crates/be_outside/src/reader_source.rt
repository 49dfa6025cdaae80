ghost use Rattle.std.specs.Prelude.{◌≡◌, ◌≤◌, ℕ, None, IfOk, is_ok, length, if◌then◌else◌};
ghost use Rattle.std.specs.Io.KnownBytes.{ReadConsumes};
ghost use Rattle.be_outside.specs.Faults.{one_more};
ghost use Rattle.be_outside.specs.Edge.{Edge};

use crate::{Failed, Source};
use std::io::Read;
use std::marker::Model;

/// A source over a reader. A fault is each error of the reader's. The source doesn't tell its
/// bytes.
#[derive(Drop)]
pub struct ReaderSource<R: Read> {
    reader: R,
    faults: u64,
}

impl<R: Read> Model for ReaderSource<R> {
    ghost Value = { Edge R };

    ghost view = { λ s. record { inner = s.reader; faults = s.faults } };
}

impl<R: Read> ReaderSource<R> {
    /// A source of what the reader gives.
    pub fn new(reader: R) -> ReaderSource<R>
        ensures { result ≡ record { inner = reader; faults = 0 } }
    {
        ReaderSource { reader, faults: 0 }
    }
}

impl<R: Read> Source for ReaderSource<R> {
    ghost left = { λ _. None };

    ghost faults = { λ s. s.faults };

    fn read(&mut self, buf: &mut [u8]) -> Result<usize, Failed>
        ensures within { IfOk result (λ n. n ≤ length buf.old) }
        ensures passes_on { ReadConsumes (R.remaining self.old.inner) (R.remaining self.new.inner)
            result buf.new }
        ensures counts { self.new.faults
            ≡ (if is_ok result then self.old.faults else one_more self.old.faults) }
        ensures never_falls { self.old.faults ≤ self.new.faults }
    {
        match self.reader.read(buf) {
            Ok(count) => Ok(count),
            Err(_) => {
                self.faults = self.faults.saturating_add(1);
                Err(Failed)
            }
        }
    }
}

ghost use Rattle.std.specs.Prelude.{◌≡◌, ◌<◌, ◌≤◌, ◌↔◌, ◌++◌, [], min, length, take, drop, vec_len};
ghost use Rattle.std.specs.Prelude.{Some, All, IsErr, IfOk, OnErr, Contains};
ghost use Rattle.be_outside.specs.Faults.{one_more};
ghost use Rattle.be_outside.specs.InMemory.{Supply, cut_to, listed};

use crate::calls::Calls;
use crate::{Failed, Source};
use std::marker::Model;

/// A source of bytes in memory, which fails where a test wants it to. It tells its bytes. A call
/// costs what it gives, and a look at each number in the list of failing calls.
#[derive(Drop)]
pub struct MemorySource {
    bytes: Vec<u8>,
    taken: usize,
    sizes: Option<Vec<usize>>,
    calls: Calls,
}

impl Model for MemorySource {
    ghost Value = { Supply };

    ghost view = { λ s. record {
      left = drop s.taken s.bytes.items;
      failing = s.calls.failing.items;
      sizes = listed s.sizes;
      calls = s.calls.made;
      faults = s.calls.faults;
    } };

    ghost invariant = { λ s.
        (s.taken ≤ vec_len s.bytes) × All (λ size. 0 < size) (listed s.sizes) };
}

impl MemorySource {
    /// Call k, counted from 0, fails where k is in `failing`.
    pub fn new(bytes: Vec<u8>, failing: Vec<u64>) -> MemorySource
        ensures { result
            ≡ record {
              left = bytes.items;
              failing = failing.items;
              sizes = [];
              calls = 0;
              faults = 0;
            } }
    {
        MemorySource {
            bytes,
            taken: 0,
            sizes: None,
            calls: Calls::new(failing),
        }
    }

    /// As `new`, but call k gives at most `sizes[k]` bytes. Calls behind the end of `sizes` give as
    /// many as fit.
    pub fn cut(bytes: Vec<u8>, failing: Vec<u64>, sizes: Vec<usize>) -> MemorySource
        requires { All (λ size. 0 < size) sizes.items }
        ensures { result
            ≡ record {
              left = bytes.items;
              failing = failing.items;
              sizes = sizes.items;
              calls = 0;
              faults = 0;
            } }
    {
        MemorySource {
            bytes,
            taken: 0,
            sizes: Some(sizes),
            calls: Calls::new(failing),
        }
    }

    // How many bytes of so many the next call gives.
    fn count_of(&self, many: usize) -> usize
        ensures count { result ≡ cut_to self.now.sizes self.now.calls many }
        ensures within { result ≤ many }
        ensures none { result ≡ 0 → many ≡ 0 }
    {
        let Some(sizes) = &self.sizes else {
            return many;
        };
        match sizes.get(self.calls.made as usize) {
            Some(size) => many.min(*size),
            None => many,
        }
    }
}

impl Source for MemorySource {
    ghost left = { λ s. Some s.left };

    ghost faults = { λ s. s.faults };

    fn read(&mut self, buf: &mut [u8]) -> Result<usize, Failed>
        ensures fails { IsErr result ↔ Contains self.old.failing self.old.calls }
        ensures count { IfOk result (λ n. n
            ≡ cut_to self.old.sizes self.old.calls (min (length buf.old) (length self.old.left))) }
        ensures filled { IfOk result (λ n. buf.new ≡ take n self.old.left ++ drop n buf.old) }
        ensures ok { IfOk result (λ n. self.new
            ≡ record self.old { left = drop n self.old.left; calls = one_more self.old.calls }) }
        ensures end { IfOk result (λ n. n ≡ 0 → 0 < length buf.old → self.new.left ≡ []) }
        ensures err { OnErr result (self.new
            ≡ record self.old {
              calls = one_more self.old.calls;
              faults = one_more self.old.faults;
            }) }
        ensures untouched { OnErr result (buf.new ≡ buf.old) }
        ensures never_falls { self.old.faults ≤ self.new.faults }
    {
        let count = self.count_of((self.bytes.len() - self.taken).min(buf.len()));
        if self.calls.begin() {
            return Err(self.calls.fail());
        }
        let left = &self.bytes[self.taken..];
        buf[..count].copy_from_slice(&left[..count]);
        self.taken += count;
        Ok(count)
    }
}

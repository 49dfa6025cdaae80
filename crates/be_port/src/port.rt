ghost use Rattle.std.specs.Prelude.{◌≡◌, true, false, ◌+◌, ◌-◌, ◌^◌, ◌<◌, ◌≤◌, slice_get};
ghost use Rattle.std.specs.Prelude.{option_copied, MatchResult, IfOk, IfErr};
ghost use Rattle.be_port.specs.Queues.{empty_queue, counted, holds_notice, with_letter, answer};
ghost use Rattle.be_port.specs.Queues.{after_post, after_notice, after_take, after_close, IsQueue};
ghost use Rattle.be_port.specs.Answers.{notice_answer, posted_as, letter_in_post, noticed_as};
ghost use Rattle.be_port.specs.Answers.{letter_in_notice};

use crate::{Letter, NoticeFault, PostFault, Posted};
use be_geom::NoMemory;
use circular_buffer::HeapCircularBuffer;
use std::alloc::Global;
use std::marker::Model;

/// A hop that is too deep to be posted.
const DEEPEST: u8 = 8;

/// A queue of letters for a window's looper: `BLooper`'s port. Its capacity doesn't count update
/// notices, of which at most one stands in the queue.
#[derive(Debug, Drop)]
pub struct Port {
    ring: HeapCircularBuffer<Letter>,
    /// Whether a notice stands in the queue.
    standing: bool,
    /// The number of the last letter that arrived.
    last: u64,
    capacity: u8,
    closed: bool,
}

impl Model for Port {
    ghost use Rattle.be_port.specs.Queues.{Queue, IsQueue, holds_notice};
    ghost use Rattle.std.specs.Prelude.{◌≡◌, ◌+◌};

    ghost Value = { Queue };

    ghost view = { λ p. record {
      letters = p.ring.items;
      last = p.last;
      capacity = p.capacity;
      closed = p.closed;
    } };

    ghost invariant = { λ p. (p.ring.capacity ≡ p.capacity + 1)
        × (p.standing ≡ holds_notice record {
          letters = p.ring.items;
          last = p.last;
          capacity = p.capacity;
          closed = p.closed;
        })
        × IsQueue record {
          letters = p.ring.items;
          last = p.last;
          capacity = p.capacity;
          closed = p.closed;
        } };
}

impl Port {
    /// An empty port: `create_port`. Its letters are numbered from 1.
    pub fn new(alloc: Global, capacity: u8) -> Result<Port, NoMemory>
        requires some { 1 ≤ capacity }
        requires within { capacity ≤ 100 }
        ensures { IfOk result (λ port. port ≡ empty_queue capacity) }
    {
        Ok(Port {
            ring: HeapCircularBuffer::with_capacity(alloc, usize::from(capacity) + 1)?,
            standing: false,
            last: 0,
            capacity,
            closed: false,
        })
    }

    /// Appends a letter and gives its number: `write_port`, which never waits here.
    pub fn post(&mut self, letter: Letter) -> Result<u64, PostFault>
        requires { self.old.last < 2 ^ 64 - 1 }
        ensures answer { answer self.old letter.hop ≡ posted_as result }
        ensures after { self.new ≡ after_post letter self.old }
        ensures back { IfErr result (λ fault. letter_in_post fault ≡ letter) }
    {
        match self.judge(letter.hop) {
            Posted::Accepted(number) => {
                self.append(letter, false);
                Ok(number)
            }
            Posted::WouldBlock(len) => Err(PostFault::WouldBlock { len, letter }),
            Posted::BadPort => Err(PostFault::BadPort(letter)),
            Posted::TooDeep => Err(PostFault::TooDeep(letter)),
        }
    }

    /// Appends an update notice, beside the capacity, and gives its number.
    pub fn notice(&mut self, letter: Letter) -> Result<u64, NoticeFault>
        requires { self.old.last < 2 ^ 64 - 1 }
        ensures answer { notice_answer self.old ≡ noticed_as result }
        ensures after { self.new ≡ after_notice letter self.old }
        ensures back { IfErr result (λ fault. letter_in_notice fault ≡ letter) }
    {
        if self.closed {
            return Err(NoticeFault::BadPort(letter));
        }
        if self.standing {
            return Err(NoticeFault::Standing(letter));
        }
        let number = self.next_number();
        self.append(letter, true);
        Ok(number)
    }

    /// Takes the letter that arrived first of those that stand in the port, closed or not:
    /// `read_port`. None where it is empty.
    pub fn take(&mut self) -> Option<Letter>
        ensures letter { result ≡ slice_get self.old.letters 0 }
        ensures after { self.new ≡ after_take self.old }
    {
        let letter = self.ring.pop_front()?;
        if letter.notice {
            self.standing = false;
        }
        Some(letter)
    }

    /// The letter that is taken next.
    pub fn front(&self) -> Option<&Letter>
        ensures { option_copied result ≡ slice_get self.now.letters 0 }
    {
        self.ring.front()
    }

    /// How many letters stand in the port that aren't notices: `port_count`.
    pub fn len(&self) -> usize
        ensures len { result ≡ counted self.now }
        ensures queue { IsQueue self.now }
    {
        self.ring.len() - usize::from(self.standing)
    }

    /// How many letters that aren't notices it holds.
    pub fn capacity(&self) -> u8
        ensures capacity { result ≡ self.now.capacity }
        ensures queue { IsQueue self.now }
    {
        self.capacity
    }

    /// The number of the last letter that arrived; 0 before the first.
    pub fn last_number(&self) -> u64
        ensures { result ≡ self.now.last }
    {
        self.last
    }

    /// The number that the next accepted letter gets.
    pub fn next_number(&self) -> u64
        requires { self.now.last < 2 ^ 64 - 1 }
        ensures { result ≡ self.now.last + 1 }
    {
        self.last + 1
    }

    /// What a post of a letter of this hop would be answered.
    pub fn judge(&self, hop: u8) -> Posted
        requires { self.now.last < 2 ^ 64 - 1 }
        ensures { result ≡ answer self.now hop }
    {
        if self.closed {
            return Posted::BadPort;
        }
        if hop >= DEEPEST {
            return Posted::TooDeep;
        }
        let len = self.len();
        if len >= usize::from(self.capacity) {
            return Posted::WouldBlock(len as u32);
        }
        Posted::Accepted(self.next_number())
    }

    /// Accepts no letter any more: `close_port`. Those that arrived can still be taken.
    pub fn close(&mut self)
        ensures { self.new ≡ after_close self.old }
    {
        self.closed = true;
    }

    /// Puts a letter behind the others.
    fn append(&mut self, mut letter: Letter, notice: bool)
        requires last { self.old.last < 2 ^ 64 - 1 }
        requires room { notice ≡ false → counted self.old < self.old.capacity }
        requires none_stands { notice ≡ true → holds_notice self.old ≡ false }
        ensures { self.new ≡ with_letter notice letter self.old }
    {
        self.last += 1;
        letter.number = self.last;
        letter.notice = notice;
        self.standing = self.standing || notice;
        let _ = self.ring.push_back(letter);
    }
}

//! A call for each place of a slice.
ghost use Rattle.std.specs.Prelude.{◌≡◌, ◌+◌, ◌^◌, ◌<◌, length};
ghost use Rattle.std.specs.Fork.{AcceptsAt, AcceptsEach, ChangesAt, ChangesEach};
ghost use denote.Param.Send.{IsSend, IsSync};
ghost use Rattle.be_workers.specs.Fork.{AcceptsFrom, ChangesFrom};

use std::thread::{Threads, for_each_mut, join_mut};

/// On which threads the places of a slice are handled.
#[derive(Clone, Copy)]
pub enum Spread {
    /// Each on a thread of its own, where one can be started.
    Apart,
    /// One behind the other, on the calling thread.
    InTurn,
}

/// Calls `f(i, &mut s[i])` once for each place. Apart, the calling thread starts all others one
/// after the other, handles the last place itself and waits for them: for many short calls that
/// takes half of the processor time that threads take which start one another. It needs stack
/// for each place.
pub fn for_each<R: Threads + Sync, T: Send, F: Fn(usize, &mut T) + Sync>(
    rt: &R,
    s: &mut [T],
    spread: Spread,
    f: &F,
)
    requires { AcceptsEach F.Fn f.now s.old }
    ensures { ChangesEach F.Fn f.now s.old s.new }
{
    match spread {
        Spread::Apart => each_from(rt, f, 0, s),
        Spread::InTurn => for_each_mut(rt, s, 1, f),
    }
}

// The places of a slice that begins at `base`, each on a thread of its own.
#[cycle(apart)]
fn each_from<R: Threads + Sync, T: Send, F: Fn(usize, &mut T) + Sync>(
    rt: &R,
    f: &F,
    base: usize,
    s: &mut [T],
)
    requires room { base + length s.old < 2 ^ 64 }
    requires accepts { AcceptsFrom F.Fn f.now base s.old }
    ensures { ChangesFrom F.Fn f.now base s.old s.new }
{
    match s.len() {
        0 => {}
        1 => at_one(f, base, &mut s[0]),
        _ => {
            let (first, rest) = s.split_at_mut(1);
            both(rt, f, base, first, base + 1, rest);
        }
    }
}

// A first place on a thread of its own, and those behind it from here. What the closures require
// has to be what a function is given.
#[cycle(apart)]
fn both<R: Threads + Sync, T: Send, F: Fn(usize, &mut T) + Sync>(
    rt: &R,
    f: &F,
    base: usize,
    first: &mut [T],
    next: usize,
    rest: &mut [T],
)
    requires one { length first.old ≡ 1 }
    requires more { 0 < length rest.old }
    requires room { (base + length first.old < 2 ^ 64) × (next + length rest.old < 2 ^ 64) }
    requires first { AcceptsFrom F.Fn f.now base first.old }
    requires rest { AcceptsFrom F.Fn f.now next rest.old }
    ensures first { ChangesFrom F.Fn f.now base first.old first.new }
    ensures rest { ChangesFrom F.Fn f.now next rest.old rest.new }
{
    let mut front = ||
        requires { IsSync R.row × IsSync F.row × IsSend T.row
            × (base + length first.now < 2 ^ 64) × AcceptsFrom F.Fn f.now base first.now }
        ensures { ChangesFrom F.Fn f.entry.now base first.entry.now first.exit.now }
    { each_from(rt, f, base, first) };
    let mut back = ||
        requires { IsSync R.row × IsSync F.row × IsSend T.row
            × (next + length rest.now < 2 ^ 64) × AcceptsFrom F.Fn f.now next rest.now }
        ensures { ChangesFrom F.Fn f.entry.now next rest.entry.now rest.exit.now }
    { each_from(rt, f, next, rest) };
    join_mut(rt, &mut front, &mut back);
}

fn at_one<T, F: Fn(usize, &mut T)>(f: &F, i: usize, it: &mut T)
    requires { AcceptsAt F.Fn f.now i it.old }
    ensures { ChangesAt F.Fn f.now i it.old it.new }
{
    f(i, it);
}

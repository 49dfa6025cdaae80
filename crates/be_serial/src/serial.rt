//! All activities on one thread.
ghost use Rattle.std.specs.Prelude.{◌≡◌, ℕ, ◌^◌, ◌<◌, ◌≤◌, [], List, Bool, false, All, IfOk};
ghost use Rattle.std.specs.Prelude.{OnOk, map, length, vec_len, vec_capacity};
ghost use Rattle.be_hall.specs.Numbers.{total};
ghost use Rattle.be_hall.specs.Machine.{AllFit};
ghost use Rattle.be_turns.specs.Turning.{is_some};
ghost use Rattle.be_serial.specs.Scheduled.{pushed_if};
ghost use Rattle.be_serial.specs.Running.{NeverStuck};
ghost use Rattle.be_serial.specs.Known.{IsKnown, Stirs, now_of};
ghost use Rattle.be_serial.specs.Steps.{CanStep, Finishes, IsOfSame, IsPicked, IsRunning};
ghost use Rattle.be_serial.specs.Steps.{Steps, ready_of};

use crate::answers::Answers;
use crate::schedule::Schedule;
use be_geom::NoMemory;
use be_hall::{Held, Parts, Verdict};
use be_turns::{Turn, Turns};
use std::alloc::Global;
use std::snapshot::Snapshot;

/// Activities that end: somebody has a legal entry until the closing one was made.
pub trait Closing: Turns {
    ghost closed: { Self → List Self.Meaning → Bool };

    /// Marks each activity of which the entry may change whether it has a legal entry. A run asks
    /// those that are marked. Where a world has no better answer, all are.
    fn stir(&self, entry: &Self::Entry, stale: &mut [bool])
        requires { length stale.old ≡ Self.activities self.now }
        ensures { Stirs (Self.machine self.now) (Self.legal self.now) (Self.activities self.now)
            entry.now stale.old stale.new }
    {
        let _entry = entry;
        for mark in stale.iter_mut() {
            *mark = true;
        }
    }

    ghost never_stuck: { (it : Self) →
        NeverStuck (Self.machine it) (Self.legal it) Self.stops (Self.activities it) (closed it) };
}

/// What a run gives.
#[derive(Drop)]
pub struct Ran<W: Turns> {
    pub rules: W,
    /// By place.
    pub parts: Vec<W::Part>,
    pub history: Vec<W::Entry>,
}

// A run so far.
#[derive(Drop)]
struct Run<W: Turns> {
    rules: W,
    held: Held<W::Part>,
    history: Vec<W::Entry>,
    opening: Snapshot<Vec<W::Part>>,
    limit: u64,
}

fn put(list: &mut Vec<u32>, place: u32, wanted: bool)
    requires { vec_len list.old < vec_capacity list.old }
    ensures places { list.new.items ≡ pushed_if wanted list.old.items place }
    ensures room { vec_capacity list.new ≡ vec_capacity list.old }
{
    if wanted {
        list.push_reserved(place);
    }
}

impl<W: Turns> Run<W> {
    // Whether the activity has a legal entry now. It is asked where that isn't known.
    fn ask(&self, answers: &mut Answers, who: u32) -> bool
        requires runs { IsRunning W.machine W.meaning W.log self.now }
        requires limit { self.now.limit ≤ 2 ^ 62 }
        requires there { who < W.activities self.now.rules }
        requires knows { IsKnown W.machine W.meaning W.legal W.activities self.now answers.old }
        ensures has { result ≡ is_some
            (W.legal self.now.rules (now_of W.machine W.meaning self.now) who) }
        ensures knows { IsKnown W.machine W.meaning W.legal W.activities self.now answers.new }
    {
        let place = who as usize;
        if !answers.stale[place] {
            return answers.can[place];
        }
        let has = self.rules.has_entry(who, &self.held);
        answers.can[place] = has;
        answers.stale[place] = false;
        has
    }

    // The activities that have a legal entry now, in order of number.
    fn list_ready(&self, answers: &mut Answers, ready: &mut Vec<u32>)
        requires runs { IsRunning W.machine W.meaning W.log self.now }
        requires limit { self.now.limit ≤ 2 ^ 62 }
        requires room { W.activities self.now.rules ≤ vec_capacity ready.old }
        requires knows { IsKnown W.machine W.meaning W.legal W.activities self.now answers.old }
        ensures room { W.activities self.now.rules ≤ vec_capacity ready.new }
        ensures knows { IsKnown W.machine W.meaning W.legal W.activities self.now answers.new }
        ensures list { ready.new.items
            ≡ ready_of W.machine W.meaning W.legal W.activities self.now }
    {
        ready.clear();
        for who in 0..self.rules.activities() {
            let has = self.ask(answers, who);
            put(ready, who, has);
        }
    }
}

impl<W: Closing> Run<W> {
    // Makes the activity's legal entry, and marks whom that may concern.
    fn step(&mut self, who: u32, answers: &mut Answers) -> Result<(), NoMemory>
        requires runs { IsRunning W.machine W.meaning W.log self.old }
        requires limit { self.old.limit ≤ 2 ^ 62 }
        requires legal { CanStep W.machine W.meaning W.legal W.activities self.old who }
        requires knows { IsKnown W.machine W.meaning W.legal W.activities self.old answers.old }
        ensures knows { OnOk result
            (IsKnown W.machine W.meaning W.legal W.activities self.new answers.new) }
        ensures same { IsOfSame self.old self.new }
        ensures made { OnOk result (Steps W.machine W.meaning W.legal who self.old self.new) }
        ensures runs { OnOk result (IsRunning W.machine W.meaning W.log self.new) }
    {
        let Turn::Entry(entry) = self.rules.next(who, &self.held)? else {
            unreachable!()
        };
        let Verdict::Ready(ready) = self.rules.prepare(&mut self.held, &entry)? else {
            unreachable!()
        };
        let number = self.history.len() as u64 + 1;
        self.rules.stir(&entry, answers.stale.as_mut_slice());
        self.history.push(entry)?;
        self.rules.perform(&mut self.held, ready, number);
        Ok(())
    }
}

/// Runs all activities on this thread, of which the seed picks one before each entry, until nobody
/// has a legal entry. Before each entry those activities are asked that the one before it may have
/// stirred.
pub fn run_serial<W: Closing + Drop>(
    alloc: Global,
    rules: W,
    parts: Vec<W::Part>,
    limit: u64,
    seed: u32,
) -> Result<Ran<W>, NoMemory>
    requires limit { limit ≤ 2 ^ 62 }
    requires few { vec_len parts < 2 ^ 32 }
    requires sound { (W.machine rules).sound (map W.meaning parts.items) }
    requires unclosed { W.closed rules (map W.meaning parts.items) ≡ false }
    requires budgets { total (W.machine rules).budget (map W.meaning parts.items) ≤ limit }
    requires fits { AllFit (W.machine rules).fits 0 (map W.meaning parts.items) }
    requires logs { All (λ x. W.log x ≡ []) parts.items }
    ensures rules { IfOk result (λ r. r.rules ≡ rules) }
    ensures finished { IfOk result (Finishes W.machine W.meaning W.stops rules parts.items) }
    ensures scheduled { IfOk result
        (IsPicked W.machine W.meaning W.legal W.activities seed rules parts.items) }
{
    let opening = Snapshot::of(&parts);
    let mut ready = Vec::with_capacity(alloc, rules.activities() as usize)?;
    let mut answers = Answers::new(alloc, rules.activities())?;
    let mut schedule = Schedule::new(seed);
    let mut run = Run {
        rules,
        held: Held::whole(parts),
        history: Vec::new(alloc),
        opening,
        limit,
    };
    loop {
        run.list_ready(&mut answers, &mut ready);
        let listed = ready.as_slice();
        if listed.len() == 0 {
            break;
        }
        let place = schedule.pick(listed.len());
        run.step(listed[place], &mut answers)?;
    }
    let Run {
        rules,
        held,
        history,
        ..
    } = run;
    Ok(Ran {
        rules,
        parts: held.into_parts(),
        history,
    })
}

//! A worker: what one thread does.
ghost use Rattle.std.specs.Prelude.{◌≡◌, ◌<◌, IfOk, OnErr};
ghost use Rattle.be_hall.specs.Words.{rules_of, view_of};
ghost use Rattle.be_workers.specs.Turned.{HasNone, HasStop, IsFree, KeepsCommits, NoneBy};
ghost use Rattle.be_workers.specs.Turned.{OnClosed, OnOver};
ghost use Rattle.be_workers.specs.Workers.{IsWorker, MayEnd, StaysWorker, TurnOf};

use crate::tools::Tools;
use crate::turn::{Did, take_turn};
use crate::wants::Wants;
use be_bells::Bells;
use be_geom::NoMemory;
use be_hall::{Hall, Pass};
use be_outside::{Gate, Spot};
use be_turns::Turns;
use std::sync::Wait;
use std::thread;

/// How a worker ended.
#[derive(Clone, Copy, Debug, PartialEq, Eq)]
pub enum End {
    /// Its activity was over, or it was told to stop.
    Over,
    /// It made the closing entry.
    Closed,
    /// It met want of memory.
    NoMemory,
}

/// A worker: its activity, the pass with which it works, what its turn wants, and how it ended.
#[derive(Drop)]
pub struct Worker<W: Turns> {
    pub who: u32,
    pub pass: Pass<W>,
    pub wants: Wants,
    pub end: End,
    /// How often it still looks whether others begin before it stands in for them.
    pub(crate) patience: u32,
}

// How often a worker that made an entry and then has nothing to do looks at its bell, and lets
// others run, before it sleeps. To be woken costs more than a step: two that pass on to each other
// are mostly rung while they look.
const LOOKS: u32 = 2;

// How often a worker looks whether others begin: the closing one whether all do, the others whether
// the closing one does. That takes some milliseconds at least, and threads start in less.
pub(crate) const PATIENCE: u32 = 10_000;

// How many microseconds the closing worker dozes between two looks, and for how many they count.
const BETWEEN: u64 = 100;

const COUNTS: u32 = 50;

impl<W: Turns + Drop> Worker<W> {
    /// Makes turns until it is told to stop, its activity is over, the closing entry was made or it
    /// met want of memory. The last two tell all workers to stop.
    pub(crate) fn labour<R: Wait, G: Gate>(
        &mut self,
        tools: &Tools<'_, R, G>,
        hall: &Hall<W>,
    ) -> End
        requires { IsWorker W.machine W.meaning W.owns W.activities hall.now self.old }
        ensures worker { StaysWorker W.machine W.meaning W.owns W.activities
            hall.now self.old self.new }
        ensures closed { result ≡ End.Closed → HasStop W.stops (view_of self.new.pass).own }
        ensures over { result ≡ End.Over → MayEnd W.machine W.legal hall.now self.new }
    {
        let who = self.who;
        let closing = hall.rules().activities() - 1;
        let (mut looks, mut heard) = (0, None);
        for _ in tools.rt.forever() {
            // Once stop is raised all bells are rung, so it asks only after a ring.
            let shown = tools.bells.shown(who);
            if heard != Some(shown) && hall.stopped(&mut self.pass) {
                return End::Over;
            }
            heard = Some(shown);
            if who == closing && holds_back(tools, closing, shown, &mut self.patience) {
                continue;
            }
            match self.step(tools, hall) {
                Ok(Did::Made) => looks = LOOKS,
                Ok(Did::Nothing) => {
                    self.patience = self.patience.saturating_sub(1);
                    pause(tools, who, shown, looks);
                    looks = 0;
                }
                Ok(Did::Over) => return End::Over,
                Ok(Did::Closed) => {
                    end_all(hall, tools.bells, &mut self.pass);
                    return End::Closed;
                }
                Err(NoMemory) => {
                    end_all(hall, tools.bells, &mut self.pass);
                    return End::NoMemory;
                }
            }
        }
        unreachable!()
    }

    // A turn of its own activity, and where that has nothing to do and the worker stands in for
    // others, of those.
    fn step<R: Wait, G: Gate>(
        &mut self,
        tools: &Tools<'_, R, G>,
        hall: &Hall<W>,
    ) -> Result<Did, NoMemory>
        requires { IsWorker W.machine W.meaning W.owns W.activities hall.now self.old }
        ensures worker { StaysWorker W.machine W.meaning W.owns W.activities
            hall.now self.old self.new }
        ensures closed { IfOk result (OnClosed (HasStop W.stops (view_of self.new.pass).own)) }
        ensures over { IfOk result (OnOver (HasNone W.machine W.legal hall.now self.old.who)) }
    {
        let who = self.who;
        match self.turn(tools, hall, who)? {
            Did::Nothing if self.stands_in(tools, hall) => self.stand_in(tools, hall),
            did => Ok(did),
        }
    }

    // Whether the worker makes turns of activities whose workers haven't begun: their threads may
    // never start. The closing one does, which begins on the thread that starts the others, and has
    // nothing else to do until they sleep. Where it doesn't begin either everyone does.
    fn stands_in<R: Wait, G: Gate>(&self, tools: &Tools<'_, R, G>, hall: &Hall<W>) -> bool
        requires { self.now.who < W.activities (rules_of hall.now) }
    {
        let closing = hall.rules().activities() - 1;
        if self.who == closing {
            return !tools.bells.all_begun();
        }
        self.patience == 0 && !tools.bells.has_begun(closing)
    }

    // Turns of the activities whose workers haven't begun, until one of them makes an entry.
    fn stand_in<R: Wait, G: Gate>(
        &mut self,
        tools: &Tools<'_, R, G>,
        hall: &Hall<W>,
    ) -> Result<Did, NoMemory>
        requires { IsWorker W.machine W.meaning W.owns W.activities hall.now self.old }
        ensures worker { StaysWorker W.machine W.meaning W.owns W.activities
            hall.now self.old self.new }
        ensures closed { IfOk result (OnClosed (HasStop W.stops (view_of self.new.pass).own)) }
        ensures never_over { IfOk result (OnOver ⊥) }
    {
        for who in 0..hall.rules().activities() {
            if tools.bells.has_begun(who) {
                continue;
            }
            match self.turn(tools, hall, who)? {
                Did::Made => return Ok(Did::Made),
                Did::Closed => return Ok(Did::Closed),
                Did::Nothing | Did::Over => {}
            }
        }
        Ok(Did::Nothing)
    }

    // One turn of an activity, which needn't be its own.
    fn turn<R: Wait, G: Gate>(
        &mut self,
        tools: &Tools<'_, R, G>,
        hall: &Hall<W>,
        who: u32,
    ) -> Result<Did, NoMemory>
        requires worker { IsWorker W.machine W.meaning W.owns W.activities hall.now self.old }
        requires there { who < W.activities (rules_of hall.now) }
        ensures worker { StaysWorker W.machine W.meaning W.owns W.activities
            hall.now self.old self.new }
        ensures ok { IfOk result (TurnOf W.machine W.legal W.stops hall.now who self.old self.new) }
        ensures none { IfOk result (NoneBy W.machine W.legal W.activities hall.now who) }
        ensures err { OnErr result (KeepsCommits self.old.pass self.new.pass) }
    {
        tools.gate.at(Spot::Before, who);
        let did = take_turn(tools, hall, self.who, who, &mut self.pass, &mut self.wants);
        tools.gate.at(Spot::After, who);
        did
    }
}

// The closing worker waits while others begin, but not for ever, and sleeps while others are awake.
// Whether it did either.
fn holds_back<R: Wait, G>(
    tools: &Tools<'_, R, G>,
    closing: u32,
    shown: u64,
    patience: &mut u32,
) -> bool {
    if *patience > 0 && !tools.bells.all_begun() {
        *patience = patience.saturating_sub(COUNTS);
        tools.bells.doze(tools.rt, closing, BETWEEN);
        return true;
    }
    if tools.bells.is_quiet() {
        return false;
    }
    tools.bells.sleep(tools.rt, closing, shown);
    true
}

// Lets others run until the bell is rung, and sleeps after so many looks. Who changes a part rings
// those that look at it.
fn pause<R: Wait, G>(tools: &Tools<'_, R, G>, who: u32, shown: u64, looks: u32) {
    for _look in 0..looks {
        if tools.bells.shown(who) != shown {
            return;
        }
        thread::yield_now();
    }
    tools.bells.sleep(tools.rt, who, shown);
}

// Tells all workers to stop, and wakes them.
fn end_all<W: Turns + Drop>(hall: &Hall<W>, bells: &Bells, pass: &mut Pass<W>)
    requires { IsFree W.meaning hall.now pass.old }
    ensures pass { IsFree W.meaning hall.now pass.new }
    ensures kept { KeepsCommits pass.old pass.new }
{
    hall.raise_stop(pass);
    bells.ring_all();
}

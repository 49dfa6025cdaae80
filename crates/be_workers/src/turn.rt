//! One turn of an activity.
ghost use Rattle.std.specs.Prelude.{◌≡◌, ◌+◌, ◌<◌, ◌==◌, ◌++◌, ◌∷◌, ◌↔◌, [], true, false};
ghost use Rattle.std.specs.Prelude.{All, IfOk, IsTrue, OnErr};
ghost use Rattle.be_hall.specs.Hands.{places_of, rises_from};
ghost use Rattle.be_hall.specs.Words.{IsPassOf, in_hand, rules_of};
ghost use Rattle.be_workers.specs.Turned.{AskedOf, HasThem, HoldsOwn, IsFree, KeepsCommits};
ghost use Rattle.be_workers.specs.Turned.{Leaves, MayAsk, NoneBy, Told, made_by};
ghost use Rattle.be_workers.specs.Wanted.{Suits};

use crate::tools::Tools;
use crate::wants::Wants;
use be_bells::Bells;
use be_geom::NoMemory;
use be_hall::{Busy, Hall, Pass, Verdict};
use be_outside::{Gate, Spot};
use be_turns::{Turn, Turns};
use std::sync::Wait;

/// What came of a turn.
#[derive(Clone, Copy, Debug, PartialEq, Eq)]
pub(crate) enum Did {
    /// It made an entry.
    Made,
    /// It made the closing activity's entry.
    Closed,
    /// It made none: the activity has no legal entry now, or is the closing one and lacks a part.
    Nothing,
    /// The activity makes no entry any more.
    Over,
}

// What came of asking with some parts in hand.
#[derive(Clone, Copy)]
enum Asked {
    Came(Did),
    Needs(u32),
}

// What it is to have made an entry of the activity.
fn made<W: Turns>(rules: &W, who: u32) -> Did
    requires { who < W.activities rules.now }
    ensures { result ≡ made_by (who + 1 == W.activities rules.now) }
{
    let many = rules.activities();
    if who + 1 == many {
        Did::Closed
    } else {
        Did::Made
    }
}

// Asks what the activity does with the parts in hand, and does it.
fn ask<G: Gate, W: Turns + Drop>(
    gate: &G,
    hall: &Hall<W>,
    who: u32,
    pass: &mut Pass<W>,
) -> Result<Asked, NoMemory>
    requires hall { IsPassOf W.meaning hall.now pass.old }
    requires there { who < W.activities (rules_of hall.now) }
    requires own { HoldsOwn W.machine W.meaning W.owns hall.now who pass.old }
    requires askable { MayAsk W.machine W.meaning hall.now pass.old }
    ensures hall { IsPassOf W.meaning hall.now pass.new }
    ensures places { places_of (in_hand pass.new) ≡ places_of (in_hand pass.old) }
    ensures ok { IfOk result (AskedOf W.machine W.legal W.stops hall.now who pass.old pass.new) }
    ensures told { IfOk result (Told W.machine W.meaning W.legal hall.now who pass.old) }
    ensures err { OnErr result (KeepsCommits pass.old pass.new) }
{
    let rules = hall.rules();
    match rules.next(who, pass.held())? {
        Turn::Ended => Ok(Asked::Came(Did::Over)),
        Turn::NotYet => Ok(Asked::Came(Did::Nothing)),
        Turn::Needs(place) => Ok(Asked::Needs(place)),
        Turn::Entry(entry) => match hall.prepare(pass, &entry)? {
            Verdict::Ready(ready) => {
                gate.at(Spot::Inside, who);
                hall.commit(pass, ready);
                Ok(Asked::Came(made(rules, who)))
            }
            Verdict::Needs(place) => Ok(Asked::Needs(place)),
            // What is legal is permitted.
            Verdict::NotLegal => unreachable!(),
        },
    }
}

// Tells the bells what came of asking with the parts at these places, which are still in hand. The
// closing entry rings nobody yet: who is rung then finds the parts in hand. All are told to stop
// before they are rung.
fn tell(bells: &Bells, watcher: u32, places: &[u32], asked: &Result<Asked, NoMemory>) {
    match asked {
        Ok(Asked::Came(Did::Made)) => {
            bells.made(watcher);
            for place in places {
                bells.changed(*place);
            }
        }
        Ok(Asked::Came(Did::Nothing)) => {
            for place in places {
                bells.watch(watcher, *place);
                bells.leaves(*place);
            }
        }
        Ok(Asked::Came(Did::Closed | Did::Over) | Asked::Needs(_)) | Err(NoMemory) => {}
    }
}

// How many microseconds a worker dozes at most each time that another has a part in hand which it
// wants.
const WAITS: [u64; 6] = [100, 200, 400, 800, 1600, 3200];

// Tries some times to take the parts at these places. Whether it has them. To sleep at the part
// itself costs more: who has it in hand wakes a thread each time that it gives it back, which
// mostly finds it in hand again, as who draws wants it for each command.
fn try_again<R: Wait, G, W: Turns + Drop>(
    tools: &Tools<'_, R, G>,
    hall: &Hall<W>,
    watcher: u32,
    pass: &mut Pass<W>,
    places: &[u32],
) -> bool
    requires pass { IsFree W.meaning hall.now pass.old }
    requires rising { rises_from 0 places.now ≡ true }
    requires below { All (λ p. p < (W.machine (rules_of hall.now)).places) places.now }
    ensures hall { IsPassOf W.meaning hall.now pass.new }
    ensures kept { KeepsCommits pass.old pass.new }
    ensures held { result ≡ true → places_of (in_hand pass.new) ≡ places.now }
    ensures none { result ≡ false → in_hand pass.new ≡ [] }
    ensures askable { result ≡ true → MayAsk W.machine W.meaning hall.now pass.new }
{
    for micros in WAITS {
        let Err(Busy { place }) = hall.try_take(pass, places) else {
            return true;
        };
        tools.bells.wait_for(tools.rt, watcher, place, micros);
    }
    false
}

// Takes the parts at these places. The closing activity, which wants all, doesn't wait for them.
fn grab<R: Wait, G, W: Turns + Drop>(
    tools: &Tools<'_, R, G>,
    hall: &Hall<W>,
    watcher: u32,
    who: u32,
    pass: &mut Pass<W>,
    places: &[u32],
) -> bool
    requires pass { IsFree W.meaning hall.now pass.old }
    requires there { who < W.activities (rules_of hall.now) }
    requires rising { rises_from 0 places.now ≡ true }
    requires below { All (λ p. p < (W.machine (rules_of hall.now)).places) places.now }
    ensures hall { IsPassOf W.meaning hall.now pass.new }
    ensures kept { KeepsCommits pass.old pass.new }
    ensures waits { result ≡ false → who + 1 ≡ W.activities (rules_of hall.now) }
    ensures held { result ≡ true → places_of (in_hand pass.new) ≡ places.now }
    ensures none { result ≡ false → in_hand pass.new ≡ [] }
    ensures askable { result ≡ true → MayAsk W.machine W.meaning hall.now pass.new }
{
    let many = hall.rules().activities();
    if who + 1 == many {
        return hall.try_take(pass, places).is_ok();
    }
    if !try_again(tools, hall, watcher, pass, places) {
        hall.take(tools.rt, pass, places);
    }
    true
}

// Has the parts at these places, which it takes where it hasn't yet.
fn hold<R: Wait, G, W: Turns + Drop>(
    tools: &Tools<'_, R, G>,
    hall: &Hall<W>,
    watcher: u32,
    who: u32,
    pass: &mut Pass<W>,
    places: &[u32],
    has: bool,
) -> bool
    requires pass { IsPassOf W.meaning hall.now pass.old }
    requires has { HasThem W.machine W.meaning hall.now places.now has pass.old }
    requires there { who < W.activities (rules_of hall.now) }
    requires rising { rises_from 0 places.now ≡ true }
    requires below { All (λ p. p < (W.machine (rules_of hall.now)).places) places.now }
    ensures hall { IsPassOf W.meaning hall.now pass.new }
    ensures kept { KeepsCommits pass.old pass.new }
    ensures waits { result ≡ false → who + 1 ≡ W.activities (rules_of hall.now) }
    ensures held { result ≡ true → places_of (in_hand pass.new) ≡ places.now }
    ensures none { result ≡ false → in_hand pass.new ≡ [] }
    ensures askable { result ≡ true → MayAsk W.machine W.meaning hall.now pass.new }
{
    has || grab(tools, hall, watcher, who, pass, places)
}

// Takes the part at this place beside those in hand, which are at these places, where it lies above
// them and nobody has it, and else gives all back. Whether it took it.
fn reach<W: Turns + Drop>(hall: &Hall<W>, pass: &mut Pass<W>, places: &[u32], place: u32) -> bool
    requires pass { IsPassOf W.meaning hall.now pass.old }
    requires held { places_of (in_hand pass.old) ≡ places.now }
    requires rising { rises_from 0 places.now ≡ true }
    requires there { place < (W.machine (rules_of hall.now)).places }
    ensures hall { IsPassOf W.meaning hall.now pass.new }
    ensures kept { KeepsCommits pass.old pass.new }
    ensures above { result ≡ true → All (λ p. p < place) places.now }
    ensures has { HasThem W.machine W.meaning hall.now (places.now ++ place ∷ []) result pass.new }
{
    if is_above(places, place) && hall.try_more(pass, place) {
        return true;
    }
    hall.give(pass);
    false
}

// Whether the place lies above these.
fn is_above(places: &[u32], place: u32) -> bool
    ensures { IsTrue result ↔ All (λ p. p < place) places.now }
{
    places.iter().all(|other| *other < place)
}

/// Asks, and takes what it needs beside, until the activity did something or could not. Each time
/// it takes one place more, beside the others where it can, and else with them anew. It waits for
/// the parts, but for those of the closing activity. Where there is nothing to do, the watcher is
/// rung once one of the parts is changed: it is the activity whose worker this is.
pub(crate) fn take_turn<R: Wait, G: Gate, W: Turns + Drop>(
    tools: &Tools<'_, R, G>,
    hall: &Hall<W>,
    watcher: u32,
    who: u32,
    pass: &mut Pass<W>,
    wants: &mut Wants,
) -> Result<Did, NoMemory>
    requires pass { IsFree W.meaning hall.now pass.old }
    requires there { who < W.activities (rules_of hall.now) }
    requires suits { Suits W.machine W.owns (rules_of hall.now) wants.old }
    ensures pass { IsFree W.meaning hall.now pass.new }
    ensures suits { Suits W.machine W.owns (rules_of hall.now) wants.new }
    ensures ok { IfOk result (Leaves W.machine W.legal W.stops hall.now who pass.old pass.new) }
    ensures none { IfOk result (NoneBy W.machine W.legal W.activities hall.now who) }
    ensures err { OnErr result (KeepsCommits pass.old pass.new) }
{
    let rules = hall.rules();
    wants.own(rules, who);
    let mut has = false;
    loop {
        if !hold(tools, hall, watcher, who, pass, wants.places(), has) {
            return Ok(Did::Nothing);
        }
        let asked = ask(tools.gate, hall, who, pass);
        tell(tools.bells, watcher, wants.places(), &asked);
        match asked {
            Ok(Asked::Needs(place)) => {
                has = reach(hall, pass, wants.places(), place);
                wants.add(rules, who, place);
            }
            Ok(Asked::Came(did)) => {
                hall.give(pass);
                return Ok(did);
            }
            Err(NoMemory) => {
                hall.give(pass);
                return Err(NoMemory);
            }
        }
    }
}

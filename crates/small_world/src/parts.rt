//! The counters as parts that threads may share.
ghost use Rattle.std.specs.Prelude.{⊤, ◌≡◌, ◌<◌, Some, OnOk};
ghost use Rattle.be_hall.specs.Hands.{part_at, with_part, meant};
ghost use Rattle.small_world.specs.Counting.{passing};
ghost use Rattle.small_world.specs.Counters.{count_of, log_of, spare_of};
ghost use Rattle.small_world.specs.InHand.{CanAct, Acts, CanReceive, Receives, CanHandOver};
ghost use Rattle.small_world.specs.InHand.{HandsOver};

use crate::counter::Counter;
use crate::judging::Prospect;
use crate::step::{Count, Step};
use crate::world::World;
use be_geom::NoMemory;
use be_hall::{Held, Parts, Verdict};
use std::snapshot::Snapshot;

/// A step that may be made, and the counters in hand from which that was seen.
#[derive(Drop)]
pub struct ReadyStep {
    step: Step,
    seen: Snapshot<Held<Counter>>,
}

impl Parts for World {
    ghost use Rattle.small_world.specs.Laws.{passing_lawful};

    type Part = Counter;

    type Entry = Step;

    type Ready = ReadyStep;

    type Meaning = Count;

    ghost machine = { λ it. passing it };

    ghost meaning = { λ x. count_of x };

    ghost log = { λ x. log_of x };

    ghost spare = { λ x. spare_of x };

    ghost entry_of = { λ r. r.step };

    ghost seen_by = { λ r. meant count_of r.seen.value.parts };

    ghost prepared = { λ it held r. ⊤ };

    ghost lawful = { λ it. passing_lawful it };

    fn places(&self) -> u32 {
        self.closing() + 1
    }

    fn prepare(
        &self,
        held: &mut Held<Counter>,
        entry: &Step,
    ) -> Result<Verdict<ReadyStep>, NoMemory> {
        let step = *entry;
        match self.judge(held, step) {
            Prospect::MayNot => Ok(Verdict::NotLegal),
            Prospect::Needs(place) => Ok(Verdict::Needs(place)),
            Prospect::May => {
                make_room(held, self.actor_of(step))?;
                let seen = Snapshot::of(held);
                Ok(Verdict::Ready(ReadyStep { step, seen }))
            }
        }
    }

    fn perform(&self, held: &mut Held<Counter>, ready: ReadyStep, number: u64) {
        let step = ready.step;
        held.ascends();
        act_at(held, self.actor_of(step), step, number);
        self.hand_over(held, step);
    }

    fn unlog(&self, part: &mut Counter) -> Option<(u64, Step)> {
        part.unlog()
    }
}

impl World {
    // The unit goes to the one to whom the step gives.
    fn hand_over(&self, held: &mut Held<Counter>, step: Step)
        requires { CanHandOver self.now step held.old.parts }
        ensures room { held.new.room ≡ held.old.room }
        ensures given { HandsOver self.now step held.old.parts held.new.parts }
    {
        match step {
            Step::Give(producer) => receive_at(held, self.target_of(producer)),
            Step::Use(_) => {}
            Step::Close => {}
        }
    }
}

fn make_room(held: &mut Held<Counter>, place: u32) -> Result<(), NoMemory>
    requires { (x : Counter) × (part_at held.old.parts place ≡ Some x) }
    ensures room { held.new.room ≡ held.old.room }
    ensures same { (x : Counter) × (y : Counter) × (part_at held.old.parts place ≡ Some x)
        × (held.new.parts ≡ with_part held.old.parts place y) × (count_of y ≡ count_of x)
        × (log_of y ≡ log_of x) × OnOk result (0 < spare_of y) }
{
    held.get_mut(place).unwrap().reserve()
}

fn act_at(held: &mut Held<Counter>, place: u32, step: Step, number: u64)
    requires { CanAct held.old.parts place }
    ensures room { held.new.room ≡ held.old.room }
    ensures acts { Acts place step number held.old.parts held.new.parts }
{
    held.get_mut(place).unwrap().act(step, number);
}

fn receive_at(held: &mut Held<Counter>, place: u32)
    requires { CanReceive held.old.parts place }
    ensures room { held.new.room ≡ held.old.room }
    ensures given { Receives place held.old.parts held.new.parts }
{
    held.get_mut(place).unwrap().receive();
}

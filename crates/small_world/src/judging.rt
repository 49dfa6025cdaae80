//! Whether a step may be made, as far as the counters in hand tell.
ghost use Rattle.std.specs.Prelude.{◌≡◌};
ghost use Rattle.be_hall.specs.Hands.{meant};
ghost use Rattle.small_world.specs.Counters.{count_of};
ghost use Rattle.small_world.specs.InHand.{told_work, Judges};

use crate::counter::Counter;
use crate::step::Step;
use crate::world::World;
use be_hall::Held;

/// What is so of a step, whatever the counters are that aren't in hand.
#[derive(Clone, Copy, Debug, PartialEq, Eq)]
pub(crate) enum Prospect {
    /// It may be made, with the counters in hand.
    May,
    /// It may not.
    MayNot,
    /// The counter at this place is needed to tell.
    Needs(u32),
}

impl World {
    pub(crate) fn judge(&self, held: &Held<Counter>, step: Step) -> Prospect
        ensures { Judges self.now (meant count_of held.now.parts) step result }
    {
        match step {
            Step::Give(producer) => self.judge_give(held, producer),
            Step::Use(consumer) => self.judge_use(held, consumer),
            Step::Close => self.judge_close(held),
        }
    }

    // The consumer's counter is wanted only where there is a unit for it.
    fn judge_give(&self, held: &Held<Counter>, producer: u32) -> Prospect
        ensures { Judges self.now (meant count_of held.now.parts) (Step.Give producer) result }
    {
        if producer >= u32::from(self.producers) {
            return Prospect::MayNot;
        }
        let Some(can_give) = self.has_work(held, producer) else {
            return Prospect::Needs(producer);
        };
        if !can_give {
            return Prospect::MayNot;
        }
        let target = self.target_of(producer);
        let Some(_) = self.has_work(held, target) else {
            return Prospect::Needs(target);
        };
        Prospect::May
    }

    fn judge_use(&self, held: &Held<Counter>, consumer: u32) -> Prospect
        ensures { Judges self.now (meant count_of held.now.parts) (Step.Use consumer) result }
    {
        if consumer < u32::from(self.producers) {
            return Prospect::MayNot;
        }
        if consumer >= self.closing() {
            return Prospect::MayNot;
        }
        let Some(can_use) = self.has_work(held, consumer) else {
            return Prospect::Needs(consumer);
        };
        if !can_use {
            return Prospect::MayNot;
        }
        Prospect::May
    }

    // Everybody else has to be without work.
    fn judge_close(&self, held: &Held<Counter>) -> Prospect
        ensures { Judges self.now (meant count_of held.now.parts) Step.Close result }
    {
        for place in 0..self.closing() {
            let Some(is_busy) = self.has_work(held, place) else {
                return Prospect::Needs(place);
            };
            if is_busy {
                return Prospect::MayNot;
            }
        }
        let closing = self.closing();
        let Some(is_open) = self.has_work(held, closing) else {
            return Prospect::Needs(closing);
        };
        if !is_open {
            return Prospect::MayNot;
        }
        Prospect::May
    }

    /// Whether the activity has something to give or to use up. None where its counter isn't in
    /// hand.
    pub(crate) fn has_work(&self, held: &Held<Counter>, activity: u32) -> Option<bool>
        ensures { result ≡ told_work self.now held.now.parts activity }
    {
        match held.get(activity) {
            Some(counter) => Some(self.work_of(activity, counter.count()) > 0),
            None => None,
        }
    }
}

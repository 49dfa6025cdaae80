//! How many activities there are, and what each of them does.
ghost use Rattle.std.specs.Prelude.{◌<◌};

use crate::step::{Count, Step};

/// So many producers, behind them so many consumers, and the closing activity last. Each producer
/// gives to one consumer, and these are taken in turn: with three of them the first one is that of
/// the producers 0, 3, 6 and so on.
#[derive(Clone, Copy, Debug)]
pub struct World {
    pub producers: u16,
    pub consumers: u16,
    ghost any_consumer: { 0 < consumers },
}

impl World {
    ghost use Rattle.std.specs.Prelude.{◌≡◌, ◌+◌, ◌^◌};
    ghost use Rattle.small_world.specs.Counting.{closing_place, target_of, wish_of, actor_of};
    ghost use Rattle.small_world.specs.Counting.{taker_of, work_of};

    /// The number of the closing activity.
    pub fn closing(&self) -> u32
        ensures number { result ≡ closing_place self.now }
        ensures small { result < 2 ^ 17 }
    {
        u32::from(self.producers) + u32::from(self.consumers)
    }

    /// The consumer to which the producer gives.
    pub fn target_of(&self, producer: u32) -> u32
        ensures { result ≡ target_of self.now producer }
    {
        u32::from(self.producers) + producer % u32::from(self.consumers)
    }

    /// The one step that the activity makes, whenever it may.
    pub fn wish_of(&self, activity: u32) -> Step
        ensures { result ≡ wish_of self.now activity }
    {
        if activity < u32::from(self.producers) {
            return Step::Give(activity);
        }
        if activity < self.closing() {
            return Step::Use(activity);
        }
        Step::Close
    }

    /// Who makes the step.
    pub fn actor_of(&self, step: Step) -> u32
        ensures { result ≡ actor_of self.now step }
    {
        match step {
            Step::Give(producer) => producer,
            Step::Use(consumer) => consumer,
            Step::Close => self.closing(),
        }
    }

    /// Who gets what the step gives. Where it gives nothing, the one that makes it.
    pub fn taker_of(&self, step: Step) -> u32
        ensures { result ≡ taker_of self.now step }
    {
        match step {
            Step::Give(producer) => self.target_of(producer),
            Step::Use(consumer) => consumer,
            Step::Close => self.closing(),
        }
    }

    /// How many of its counter's units are the activity's to give, or to use up.
    pub fn work_of(&self, activity: u32, count: Count) -> u64
        ensures { result ≡ work_of self.now activity count }
    {
        if activity < u32::from(self.producers) {
            return count.left;
        }
        count.units
    }
}

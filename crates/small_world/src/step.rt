//! What counters mean, and the steps that activities make.

/// Units that a counter's activity has.
#[derive(Clone, Copy, Debug, PartialEq, Eq)]
pub struct Count {
    /// How many it may still give.
    pub left: u64,
    /// How many it may use up.
    pub units: u64,
}

/// One step of an activity.
#[derive(Clone, Copy, Debug, PartialEq, Eq)]
pub enum Step {
    /// The producer with this number gives a unit to its consumer.
    Give(u32),
    /// The consumer with this number uses a unit up.
    Use(u32),
    /// The closing activity uses up what it has.
    Close,
}

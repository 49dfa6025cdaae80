/// A moment in a turn of an activity.
#[derive(Clone, Copy, Debug, PartialEq, Eq)]
pub enum Spot {
    /// The turn is about to take parts.
    Before,
    /// The turn holds its parts, and is about to commit.
    Inside,
    /// The turn has given its parts back.
    After,
}

/// Where a test may hold up an activity, which asks at each spot of its turns.
pub trait Gate {
    /// `who` is the activity's number. The call returns.
    fn at(&self, spot: Spot, who: u32);
}

/// A gate that holds up nobody.
#[derive(Clone, Copy, Debug, PartialEq, Eq)]
pub struct OpenGate;

impl Gate for OpenGate {
    fn at(&self, _spot: Spot, _who: u32) {}
}

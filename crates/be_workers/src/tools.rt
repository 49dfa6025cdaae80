//! What the workers use beside the hall.
use be_bells::Bells;

/// The runtime, a test's gate, and the bells of those that sleep.
#[derive(Drop)]
pub(crate) struct Tools<'a, R, G> {
    pub rt: &'a R,
    pub gate: &'a G,
    pub bells: &'a Bells,
}

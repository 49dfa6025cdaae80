use thiserror::Error;

/// 16 states are saved, and there is room for no more.
#[derive(Clone, Copy, Debug, PartialEq, Eq, Error)]
#[error("too many states are saved")]
pub struct StackFull;

/// No state is saved.
#[derive(Clone, Copy, Debug, PartialEq, Eq, Error)]
#[error("no state is saved")]
pub struct StackEmpty;

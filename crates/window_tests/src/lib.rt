//! The tests of the window crates. Nothing else is here.
#![tactic(auto)]

#[cfg(test)]
mod link;
#[cfg(test)]
mod looper;
#[cfg(test)]
mod pane;
#[cfg(test)]
mod port;

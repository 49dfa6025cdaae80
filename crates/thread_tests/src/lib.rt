//! The tests of runs on threads. Nothing else is here.
#![tactic(auto)]

#[cfg(test)]
mod fork;
#[cfg(test)]
mod met;
#[cfg(test)]
mod refused;
#[cfg(test)]
mod replay;
#[cfg(test)]
mod runs;

//! The tests of runs of scripts on threads. Nothing else is here.
#![tactic(auto)]

#[cfg(test)]
mod delayed;
#[cfg(test)]
mod met;
#[cfg(test)]
mod refused;
#[cfg(test)]
mod runs;
#[cfg(test)]
mod scripts;

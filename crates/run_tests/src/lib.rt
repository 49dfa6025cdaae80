//! The tests of the runs and of their gates. Nothing else is here.
#![tactic(auto)]

#[cfg(test)]
mod gates;
#[cfg(test)]
mod outside;
#[cfg(test)]
mod replay;
#[cfg(test)]
mod serial;

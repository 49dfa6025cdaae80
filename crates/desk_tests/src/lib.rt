//! The tests of window changes on screens with their pixels. Nothing else is here.
#![tactic(auto)]

#[cfg(test)]
mod moving;
#[cfg(test)]
mod naming;
#[cfg(test)]
mod picture;
#[cfg(test)]
mod showing;
#[cfg(test)]
mod sizing;

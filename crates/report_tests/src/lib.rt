//! The tests of reports. Nothing else is here.
#![tactic(auto)]

#[cfg(test)]
mod bare;
#[cfg(test)]
mod buttons;
#[cfg(test)]
mod history;
#[cfg(test)]
mod message;
#[cfg(test)]
mod notes;
#[cfg(test)]
mod pixels;
#[cfg(test)]
mod screen;
#[cfg(test)]
mod summary;
#[cfg(test)]
mod taken;
#[cfg(test)]
mod traces;
#[cfg(test)]
mod trees;
#[cfg(test)]
mod whole;

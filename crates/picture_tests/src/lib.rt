//! The tests of pictures. Nothing else is here.
#![tactic(auto)]

#[cfg(test)]
mod off_screen;
#[cfg(test)]
mod recording;
#[cfg(test)]
mod sheet;
#[cfg(test)]
mod text;

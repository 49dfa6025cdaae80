//! The tests of archives and buttons. Nothing else is here.
#![tactic(auto)]

#[cfg(test)]
mod archives;
#[cfg(test)]
mod buttons;

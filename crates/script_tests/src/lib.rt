//! The tests of the crates of the script language. Nothing else is here.
#![tactic(auto)]

#[cfg(test)]
mod actor;
#[cfg(test)]
mod line;
#[cfg(test)]
mod plain;
#[cfg(test)]
mod reader;
#[cfg(test)]
mod rules;
#[cfg(test)]
mod work;

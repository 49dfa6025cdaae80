//! The tests of the pixel crates. Nothing else is here.
#![tactic(auto)]

/// Asserts that two values are the same; in a table with what tells the row. (What `assert_eq!`
/// writes out at each place is proved at each; a call of a function costs nearly nothing.)
#[cfg(test)]
macro_rules! same {
    ($rt:expr; $found:expr, $due:expr) => {
        $crate::same::same(&$rt, stringify!($found), $found, $due)
    };
    ($rt:expr; $found:expr, $due:expr, $case:expr) => {
        $crate::same::same(&$rt, $case, $found, $due)
    };
}

#[cfg(test)]
mod bitmap;
#[cfg(test)]
mod color;
#[cfg(test)]
mod follow;
#[cfg(test)]
mod font;
#[cfg(test)]
mod rect;
#[cfg(test)]
mod region;
#[cfg(test)]
mod rows;
#[cfg(test)]
mod same;
#[cfg(test)]
mod shape;
#[cfg(test)]
mod state;
#[cfg(test)]
mod views;

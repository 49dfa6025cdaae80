//! The tests of the spans and of the descent that paints on them. Nothing else is here.
#![tactic(auto)]

/// Asserts that two values are the same; in a table with what tells the row. (What `assert_eq!`
/// writes out at each place is proved at each; a call of a function costs nearly nothing.)
#[cfg(test)]
macro_rules! same {
    ($rt:expr; $found:expr, $due:expr) => {
        $crate::same::same(&$rt, stringify!($found), $found, $due)
    };
    ($rt:expr; $found:expr, $due:expr, $case:expr) => {
        $crate::same::same(&$rt, $case, $found, $due)
    };
}

#[cfg(test)]
mod descent;
#[cfg(test)]
mod same;
#[cfg(test)]
mod span;
#[cfg(test)]
mod spans;

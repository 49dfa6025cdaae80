//! What is pressed: which of the letters that loopers take invoke the view that they are for, where
//! every view is a button.
//!
//! There is one button for each view of each window, and a letter is heard by those of its window.
//! So a letter costs a step for each view of its window. A line costs its bytes, and a look at each
//! view of the script, as each window does at the start. The buttons and the text take memory, and
//! nothing else does.
#![tactic(auto)]

mod hearing;
mod letter;
mod opening;
mod pressing;
mod writing;

pub use letter::TakenLetter;
pub use pressing::pressed;

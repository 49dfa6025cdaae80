//! Facts on truth values, numbers, bytes, lists and comparisons that std doesn't have, and what the
//! byte of a name is: definitions and lemmas, each said once for all crates. No program has a byte
//! of them.
#![tactic(auto)]

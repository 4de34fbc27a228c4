//! Who has the key that a grant on a file hands out, and which stores have such grants at all.
#![tactic(auto)]

pub mod laws;

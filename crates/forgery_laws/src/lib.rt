//! What is shown of a store of which anybody may have written any byte: definitions and laws.
#![tactic(auto)]

pub mod laws;

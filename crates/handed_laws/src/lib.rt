//! What whoever holds a store's disk can unmask of all that it was ever handed.
#![tactic(auto)]

pub mod laws;

//! What is written to a store at each attempt: no number is spent twice, and no veil key masks two payloads.
#![tactic(auto)]

pub mod calls;
pub mod laws;
pub mod rows;

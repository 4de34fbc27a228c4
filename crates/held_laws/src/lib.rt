//! What runs under heads spend: no number twice, whatever stores they are handed.
#![tactic(auto)]

pub mod calls;
pub mod laws;
pub mod rows;

//! What a stop leaves of calls of the program, one after another: every command and upgrade that was acknowledged, and none that wasn't
//! accepted.
#![tactic(auto)]

pub mod calls;
pub mod laws;

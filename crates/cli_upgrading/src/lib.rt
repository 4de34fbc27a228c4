//! The command `upgrade`, with a head or without, over any source of input and of random bytes, any disk and any sink.
#![tactic(auto)]

pub mod held;
pub mod laws;
mod telling;
pub mod upgrade;

//! The command `run`, with a head or without, over any source of input and of random bytes, any disk and any sink.
#![tactic(auto)]

pub mod held;
mod key_line;
pub mod laws;
pub mod run;

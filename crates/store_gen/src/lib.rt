//! Scripts of any length from a number, for stores to measure with.
#![tactic(auto)]

mod change;
mod generating;
mod generator;
pub mod laws;
pub mod rows;

pub use generating::generate;

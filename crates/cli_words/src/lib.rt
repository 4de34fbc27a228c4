//! The words that the program takes after its name, and the texts that some of them ask for.
#![tactic(auto)]

mod heads;
mod numbers;
pub mod texts;
pub mod words;

//! What all commands share: how the program ends, lines of an input, and pieces of an output.
#![tactic(auto)]

pub mod input;
pub mod lines;
pub mod outside;
mod piece;
pub mod reading;
pub mod status;

//! Heads of a log: what names it, and what shows that it goes on from an older one (docs/PROGRAM.md, "Heads").
#![tactic(auto)]

pub mod asking;
pub mod checking;
pub mod laws;
mod proof_lines;
pub mod statuses;
pub mod testing;

//! The command `serve`.
#![tactic(auto)]

mod answering;
mod ends;
mod seating;
pub mod serve;
pub mod serve_fault;
mod turns;

//! The commands that only read a store: `list`, `open` and `audit`, over any source of input, any disk and any sink.
#![tactic(auto)]

pub mod audit;
pub mod list;
pub mod open;
pub mod reading;
mod texts;

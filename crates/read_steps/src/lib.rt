//! Readers who stay while others write: each goes on where it stood (docs/FORMAT.md, "Reading").
#![tactic(auto)]

mod batch_count;
mod one_more;
mod session;

pub use session::Session;

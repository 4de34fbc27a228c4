//! Heads of a store's log, which anybody reads without a key (docs/FORMAT.md, "Heads").
#![tactic(auto)]

mod proof_so_far;
mod published;
mod reading;
mod so_far;

pub use published::PublishedProof;
pub use reading::Heads;

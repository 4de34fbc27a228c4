//! What follows from a key by all that was ever published.
#![tactic(auto)]

mod keeping;
pub mod laws;
pub mod right_laws;
pub mod rows;
mod trail_search;
pub mod view_laws;

pub use keeping::{HeldLink, History, LinkRef};

//! A holder whose key several people share: what replacing it stands for.
#![tactic(auto)]

mod expanding;
mod paths;

pub use expanding::{ExpandFault, commands_for, expand};

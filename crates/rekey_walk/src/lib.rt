//! Which keys are dirty, and which of them a change renews.
#![tactic(auto)]

mod dirty;
mod in_list;
pub mod laws;
pub mod rows;
mod strict;
mod walks;

pub use dirty::Dirty;
pub use in_list::{has_role, is_same_role};
pub use strict::strict_in;
pub use walks::{mark_in, plan_closed, plan_in};

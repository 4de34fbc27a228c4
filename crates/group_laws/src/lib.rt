//! Laws of the replacement of a holder: what its commands leave, why one of them may be refused, and what the old holder learns later;
//! and worked rows.
#![tactic(auto)]

pub mod laws;
pub mod rows;

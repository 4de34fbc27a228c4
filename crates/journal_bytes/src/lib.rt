//! The bytes of a journal: which bytes stand for one, what may be read in them, what its commands draw and seal. Definitions, laws
//! and worked rows.
#![tactic(auto)]

pub mod folding;
pub mod holding;
pub mod laws;
pub mod opening_laws;
pub mod rows;
pub mod script_laws;
pub mod script_rows;
pub mod sealing_laws;
pub mod texting_laws;
pub mod upgrade_laws;

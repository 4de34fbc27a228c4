//! What is written out of a holder's sight stays secret.
#![tactic(auto)]

pub mod any_roles;
pub mod departure_laws;
pub mod journal_laws;
pub mod note_laws;
pub mod rows;

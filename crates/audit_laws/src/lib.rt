//! What audits show of the journals that bytes publish: definitions and laws.
#![tactic(auto)]

pub mod laws;

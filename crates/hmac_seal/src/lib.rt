//! HMAC with SHA-256 (RFC 2104 over FIPS 180-4), whole or part by part, and the comparison of tags.
#![tactic(auto)]

mod block;
mod state;
mod tags;
mod whole;

pub use state::Hmac;
pub use tags::tags_equal;
pub use whole::hmac;

//! What an audit may derive from a store: the keys that right links lead to, and the records that nobody but the owner made.
#![tactic(auto)]

mod auditing;
mod contents;
mod grouped;
mod kept;
pub mod laws;
mod placed_records;
mod right_key;
mod seals;
mod seen_log;
mod trails;

pub use auditing::audit;
pub use cry_base::Seen;

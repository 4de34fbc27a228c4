//! Heads of a log after RFC 6962: a head names a log's first batches by their number and one hash, and a proof shows that an older
//! head's log begins a newer one's.
#![tactic(auto)]

mod checking;
mod climb;
mod frontier;
mod growing_proof;
mod hashing;
mod head;
pub mod laws;
pub mod rows;
mod tree;

pub use checking::{BadProof, check_proof};
pub use frontier::Frontier;
pub use growing_proof::GrowingProof;
pub use hashing::leaf_hash;
pub use head::Head;
pub use tree::LogTree;

//! The checkpoint file STORE.idx, read and written (docs/FORMAT.md, "The checkpoint").
#![tactic(auto)]

mod body;
mod checkpoint;
mod fault;
pub mod laws;
mod objects;
mod reading;
mod spots;
mod tag;
mod writing;

pub use checkpoint::Checkpoint;
pub use fault::IndexFault;
pub use objects::Object;
pub use reading::read_checkpoint;
pub use spots::{ContentSpot, LinkSpot};
pub use writing::write_checkpoint;

//! The three steps by which a batch joins the log in a file, each on the disk before the next: the batch behind a closed
//! gate, the gate before it, its slot (docs/FORMAT.md, "Committing"). What a batch says is not known here.
#![tactic(auto)]

mod appending;
mod steps;
mod writing;

pub use appending::append;
pub use steps::{Gated, OPEN, Staged, open_gate, stage, unveil, unveil_found};
pub use writing::{write_and_sync, write_header};

//! What stands in public after each payload, and what the next one has to hold.
#![tactic(auto)]

mod advance;
mod by_kind;
mod changing;
mod counter;
mod fault;
mod fitting;
mod heads;
pub mod key_laws;
mod key_order;
mod key_rows;
mod keys;
mod kinds;
pub mod laws;
mod lists;
mod marks;
mod numbering;
mod prepared;
mod publishing;
pub mod rows;
mod sealing;
mod sound_keys;
pub mod sound_laws;
mod sound_marks;
mod sound_rows;
mod standing_roles;
mod state;
pub mod state_laws;
mod state_writing;
mod states;
mod step;
pub mod step_laws;
pub mod tree_laws;
pub mod turn_laws;

pub use fault::FoldFault;
pub use heads::{ContentHead, KeyHead, LinkHead, Skeleton};
pub use key_order::KeyOrder;
pub use prepared::Prepared;
pub use state::PublicState;
pub use states::{StateFault, StateRead};

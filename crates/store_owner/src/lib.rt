//! The owner of a store: makes it, opens it for writing, and applies commands.
#![tactic(auto)]

mod apply_fault;
pub mod apply_laws;
mod asked;
mod change;
mod counted;
pub mod deed_laws;
mod drawing;
mod key_room;
mod making;
pub mod making_laws;
pub mod opened_laws;
mod opening;
mod owner;
pub mod owner_laws;
mod records;
pub mod sound_laws;
mod step_records;
mod step_room;
pub mod stopping_laws;
mod tally;
pub mod tally_laws;

pub use apply_fault::ApplyFault;
pub use owner::Owner;
pub use tally::Tally;

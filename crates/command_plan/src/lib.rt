//! What a command asks of a store, told before it is done: why it is refused or what it finds, its note, its text, its size, and the
//! names after it. All but the first come from what was found.
#![tactic(auto)]

mod command_notes;
mod name_change;
pub mod name_laws;
mod resolving;
mod sizing;
mod texts;

pub use command_notes::note_for;
pub use name_change::{NameChange, change_names, name_change_for};
pub use resolving::resolve;
pub use sizing::{sealed_len, size_of};
pub use texts::{KEY_LEN, text_for};

//! A sorted table: rows in ascending order of a rank, found by binary search, added without memory once room is made.
#![tactic(auto)]

mod blocks;
mod ranked;
mod span;
mod table;
mod walk;

pub use blocks::Blocks;
pub use ranked::{Key, Ranked};
pub use span::Span;
pub use table::Table;
pub use walk::Walk;

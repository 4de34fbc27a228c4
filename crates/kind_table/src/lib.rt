//! The kinds of keys, and which kind leads to which (docs/FORMAT.md, "Kinds of links").
#![tactic(auto)]

mod eleven;
mod kinds;
pub mod laws;
mod markers;
mod pairs;
mod reached;
mod table;

pub use eleven::ELEVEN;
pub use kinds::{RoleKind, kind_of};
pub use markers::{BackK, ClearK, DataK, FileK, FilesK, HolderK, OwnerK, SubK};
pub use pairs::{KeyKind, LinksTo, Seals};
pub use table::{Row, Table};

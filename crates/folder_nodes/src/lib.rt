//! The folder tree: who is in which folder, under which name, and what a path finds.
#![tactic(auto)]

mod book;
mod changes;
mod descent;
mod finding;
mod grouped;
mod inside;
pub mod laws;
mod listed;
mod name_rows;
mod names;
mod naming;
mod opened_names;
mod place;
mod restoring;
mod rows;
mod shape;
mod spelling;
mod spots;
mod targets;
mod titles;
mod trying;
mod walking;
mod ways;

pub use finding::find;
pub use names::Names;
pub use naming::{front_of, name_ok, path_ok};
pub use opened_names::OpenedNames;
pub use rows::{FileRow, FolderRow};
pub use shape::Shape;
pub use targets::{Target, find_target};

//! The words that every crate of cryptree speaks: ids, roles, lists with room, limits.
#![tactic(auto)]

mod client;
mod commands;
mod ids;
pub mod laws;
mod limits;
mod list;
mod memory;
mod roles;
pub mod rows;
mod steps;

pub use client::{Bundle, Line, Seen};
pub use commands::{Command, Refusal, Reply};
pub use ids::{Epoch, FileId, FolderId, HolderId, ROOT, Serial};
pub use limits::{
    CLEAR_BASE, DEPTH, FILE_BYTES, FIRST_STORE_BYTES, Limits, NAME_BYTES, STORE_BYTES, limits_of,
};
pub use list::{List, Text};
pub use memory::{Mem, OutOfMemory};
pub use roles::{Edge, Node, Role};
pub use steps::Steps;

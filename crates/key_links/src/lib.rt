//! Keys sealed under keys, and texts sealed under keys.
#![tactic(auto)]

mod any_fresh;
mod any_key;
mod any_links;
mod by_kind;
mod contents;
pub mod laws;
mod links;
mod record_roles;
mod ring;
mod ring_records;
mod typed;

pub use any_fresh::AnyFresh;
pub use contents::{open_content, seal_content};
pub use links::{follow, link};
pub use record_roles::{source_with, target_with};
pub use ring::KeyRing;

//! One session of a store's owner: lines applied one after another, over any source of lines and of random bytes, any disk and any sink.
#![tactic(auto)]

pub mod ends;
pub mod opening;
mod owner_steps;
pub mod script;
pub mod version;

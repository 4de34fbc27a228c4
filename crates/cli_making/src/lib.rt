//! The commands that make a store: `make` and `gen`, over any source of random bytes, any disk and any sink.
#![tactic(auto)]

mod figures;
pub mod generating;
pub mod make;
mod script_source;
mod silent;

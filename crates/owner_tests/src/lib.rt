//! Tests of an owner over fakes. They stand in a crate of their own, so that they are proved from contracts alone, and
//! `store_owner` isn't proved with them again.
#![tactic(auto)]

#[cfg(test)]
mod fakes;
#[cfg(test)]
mod limit;
#[cfg(test)]
mod memory;
#[cfg(test)]
mod script;

//! Calls of the program over fakes, told by plain values, for the crates of its tests. They stand in a crate of their own, so that each is
//! proved once. A test looks at what came of a call, so they promise nothing but to be safe and to return.
#![tactic(auto)]

pub mod call;
mod objects;

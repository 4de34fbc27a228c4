//! Tests of what a store is made of: its edges, what keys lead to, and marks, over small stores. They stand in a crate of their own, so
//! that they are proved from contracts alone, and the crates that they test aren't proved with them again.
#![tactic(auto)]

#[cfg(test)]
mod drawn;
#[cfg(test)]
mod graph;
#[cfg(test)]
mod passes;
#[cfg(test)]
mod stores;
#[cfg(test)]
mod walks;

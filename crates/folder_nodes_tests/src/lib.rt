//! Tests of the folder tree and its names. They stand in a crate of their own, so that they are proved from the contracts of
//! `folder_nodes` alone, and that crate isn't proved with them again.
#![tactic(auto)]

#[cfg(test)]
mod changes;
#[cfg(test)]
mod paths;
#[cfg(test)]
mod trees;

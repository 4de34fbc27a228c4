//! Tests of the program where one call of an object fails, or the disk is dead from one on, and of what a stop leaves behind that. They
//! stand in a crate of their own, so that they are proved from contracts alone, and nothing below is proved with them again.
#![tactic(auto)]

#[cfg(test)]
mod faults;
#[cfg(test)]
mod script;
#[cfg(test)]
mod standing;

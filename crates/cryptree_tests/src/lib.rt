//! Tests of the program's top call over fakes. They stand in a crate of their own, so that they are proved from the
//! contract of `top` alone, and the crates below aren't proved with them again.
#![tactic(auto)]

#[cfg(test)]
mod faults;
#[cfg(test)]
mod served;

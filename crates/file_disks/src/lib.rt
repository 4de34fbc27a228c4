//! The two disks that stand around a store's file, over any disk: one reads ahead, and one counts syncs, so that somebody is told how
//! many commands stand. Both are disks as the one within is.
#![tactic(auto)]

mod known;
mod pace;
mod read_ahead;
mod watched;

pub use pace::Pace;
pub use read_ahead::ReadAhead;
pub use watched::{Onlooker, Watched};

//! The outside: where bytes come from, where they go, and the disk, with what a stop may leave on it.
#![tactic(auto)]

mod disk;
mod failed;
mod file_disk;
mod history;
mod mem_disk;
mod mem_sink;
mod mem_source;
mod mixer;
mod platter;
mod schedule;
mod std_streams;
mod streams;
mod tally;

pub use disk::Disk;
pub use failed::Failed;
pub use file_disk::FileDisk;
pub use mem_disk::MemDisk;
pub use mem_sink::MemSink;
pub use mem_source::MemSource;
pub use std_streams::{StdSink, StdSource};
pub use streams::{Sink, Source};

//! What a holder's client shows.
#![tactic(auto)]

mod admission;
mod file_rows;
pub mod laws;
mod lines;
mod log_reader;
mod log_reading;
mod opening_path;
mod reading;
pub mod rows;
mod showing;
mod streamed_log;
pub mod verdict_laws;
pub mod verdict_rows;

pub use log_reader::Reader;
pub use log_reading::{Keeps, ReadLog, read_log};
pub use opening_path::open_path;
pub use showing::view;

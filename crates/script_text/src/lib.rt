//! Lines in and out: what a reader is handed, and what is printed.
#![tactic(auto)]

mod commands;
mod cutter;
mod fault;
mod fed;
mod gauge;
mod head_lines;
mod hex_text;
pub mod laws;
mod printing;
mod reading;
mod seats;
mod seen_lines;
mod tasks;

pub use commands::read_line;
pub use cutter::{Cutter, first_newline};
pub use fault::LineFault;
pub use head_lines::{print_head, print_node, read_node};
pub use printing::{OWNER_LINE_LEN, print_line, print_owner, print_reply};
pub use reading::{key_in, read_bundle};
pub use seats::{SeatLine, SeatRefusal, SeatReply, TurnLine, print_seat_reply, read_turn};
pub use seen_lines::print_seen;
pub use tasks::{LineTask, read_task};

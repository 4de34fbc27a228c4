//! The checkpoint file STORE.idx as bytes: its head, a folded state, and where records stand (docs/FORMAT.md, "The checkpoint").
#![tactic(auto)]

mod head;
pub mod laws;
mod reading;
mod rows;
mod state;
mod writing;

pub use head::IndexHead;
pub use reading::{read_plain_body, read_plain_state, read_rows};
pub use rows::{
    CheckRow, ContentRow, FileRow, Fixed, FolderRow, GrantRow, KeyRow, LinkRow, MarkRow,
    StateNumbers,
};
pub use state::{BodyRows, StateRows};
pub use writing::{
    plain_body_len, plain_state_len, put_counted, put_plain_body, put_plain_state, put_rows,
    write_plain_body, write_plain_state,
};

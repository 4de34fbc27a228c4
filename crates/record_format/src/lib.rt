//! Payloads of batches as bytes: notes, sealed keys, sealed contents (docs/FORMAT.md, "Records", "Notes and payloads").
#![tactic(auto)]

mod content;
mod fault;
pub mod fields;
mod laws;
mod link;
mod note;
mod payload;
mod reading;
mod writing;

pub use content::{
    CONTENT_FRAME_LEN, ContentRecord, FILE_TEXT, FOLDER_NAME, HOLDER_KEY, content_header,
    text_range,
};
pub use fault::{PayloadFault, Stop};
pub use laws::{spelling_has_its_size, spelling_is_prefix_free, spelling_reads_back};
pub use link::{LINK_LEN, LinkRecord, link_header};
pub use note::Note;
pub use payload::{Payload, contents_len, links_offset, payload_len};
pub use reading::{list_with_room, read_payload};
pub use writing::{put_number, put_payload, write_payload};

//! The log of batches in a store file: what each of them is, and how it is read (docs/FORMAT.md, "The file").
#![tactic(auto)]

mod batch;
mod batch_type;
mod commit_fault;
mod fault;
mod filling;
mod given;
mod head;
mod journal;
mod judge;
mod keeping;
mod laws;
mod layout;
mod log_laws;
mod opening;
mod opening_laws;
mod owned;
mod past;
mod placed;
mod places;
mod public_log;
mod reading;
mod standing;

pub use batch_type::BatchType;
pub use commit_fault::CommitFault;
pub use fault::OpenFault;
pub use journal::Journal;
pub use keeping::{
    holding_is_widened, kept_at_the_start, kept_by_two_calls, settled_disk_holds, time_goes_on,
};
pub use laws::{image_is_read_back, nothing_behind_is_looked_at, records_stand_at_their_places};
pub use layout::{FRONT_LEN, HEADER_LEN};
pub use log_laws::{
    epochs_count_up, holder_reads_the_owners_log, nobody_looks_behind, owner_walks_the_log,
    standing_bytes_are_opened_whole, writers_epochs_count_up,
};
pub use opening::Opened;
pub use opening_laws::{
    filled_bytes_stand_whole, opened_batches_are_the_writers, opened_disk_is_settled,
    opened_journal_stands_for_its_batches, owner_opens_the_writers_log,
    standing_bytes_are_never_refused, standing_bytes_are_opened_as_their_log,
};
pub use past::Past;
pub use placed::{Body, Placed};
pub use places::{content_place, link_place};
pub use public_log::{PublicLog, read_owner, read_public};
pub use standing::{
    image_has_its_length, image_of_a_prefix, standing_bytes_are_read_as_published,
    standing_bytes_tell_their_batches, steps_of_a_commit, whole_image_is_published,
    whole_image_stands_for_its_batches,
};

//! Follows the payloads of a log, and opens its records by visits.
#![tactic(auto)]

mod entry_files;
mod fault;
pub mod fold_laws;
mod folding;
mod index;
mod indexed_log;
mod last_contents;
mod last_links;
mod number_hasher;
mod opening;
pub mod opening_laws;
mod record_spots;
mod records;
mod row_counts;
mod sights;
mod spot_table;
mod text_forms;
mod texts;
mod visit_list;
mod visiting;
mod ways;

pub use entry_files::{EntryFile, entry_files_of};
pub use fault::{BEHIND_HEADER, ClientFault};
pub use folding::{fold, take_batch};
pub use index::Index;
pub use last_contents::ContentSpot;
pub use last_links::FoundLink;
pub use opening::{OwnersView, open_all, visit_each, visit_link};
pub use records::{FoundContent, Records, take_content};
pub use sights::{Sight, Viewer, all_sights, is_nameless};
pub use text_forms::{file_parts, is_folder_text, text_of};
pub use texts::{NamedBytes, open_file, present_serial};
pub use visit_list::{Visit, visits_to_names};
pub use ways::{file_path, folder_path};

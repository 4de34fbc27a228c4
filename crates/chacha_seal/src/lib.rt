//! Keys, serials that are spent once, sealing and masking.
#![tactic(auto)]

mod counter;
mod derived;
mod kept;
mod key;
mod log_key;
mod nonce;
mod opening;
mod sealing;
mod stream;

pub use counter::Counter;
pub use derived::check_of;
pub use key::{FreshKey, Key};
pub use kind_table::{BackK, ClearK, DataK, FileK, FilesK, HolderK, OwnerK, SubK};
pub use log_key::LogKey;
pub use nonce::Nonce;
pub use opening::{BadTag, open_in_place, open_key};
pub use sealing::{mask_in_place, seal_in_place};

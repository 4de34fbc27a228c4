//! Who was made a holder, and which folders and files each of them was granted.
#![tactic(auto)]

mod check;
mod clearances;
mod grant;
mod grants;
pub mod laws;
mod restoring;

pub use check::check_grant;
pub use clearances::{clear_number, file_of};
pub use grant::Grant;
pub use grants::Grants;

//! What each command changes among the keys.
#![tactic(auto)]

mod change;
mod changes;
mod dropping;
mod edging;
mod fault;
mod few_roles;
mod fitting;
mod granting;
pub mod laws;
mod row;
pub mod rows;
mod strict;

pub use change::{Change, change_of};
pub use fault::ChangeFault;
pub use few_roles::FewRoles;
pub use fitting::fits;

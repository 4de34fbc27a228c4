//! Which roles lead to which, and who may read what.
#![tactic(auto)]

mod adjacency;
mod adjacent;
mod clearances;
mod counted_roles;
mod edge_list;
pub mod key_laws;
pub mod kinds;
pub mod laws;
mod reaching;
mod rights;
mod role_edges;
mod role_set;
mod roles;
pub mod rows;
mod store_roles;
pub mod tabled;
mod touching;
mod walking;
mod way;

pub use adjacent::Adjacent;
pub use clearances::clearance_of;
pub use counted_roles::CountedRoles;
pub use edge_list::{
    edges, edges_at_clearance, edges_between, edges_within, in_their_order, number_of,
};
pub use reaching::{leading_to, reach, reach_back};
pub use rights::{allowed, granted_place, named};
pub use role_set::RoleSet;
pub use roles::Roles;
pub use store_roles::StoreRoles;
pub use touching::edges_touching;
pub use walking::{has_edge, walk, walk_within};
pub use way::Way;

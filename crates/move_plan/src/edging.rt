//! Roles and edges of a folder and of a file, and lists of them.
ghost use Rattle.std.specs.Prelude.{◌≡◌, ◌++◌, IfOk};
ghost use Rattle.role_graph.specs.Edges.{edge_before, in_order, folder_edges as edges_of_folder, parent_edges as edges_to_parent};
ghost use Rattle.role_graph.specs.Roles.{folder_roles as roles_of_folder};

use cry_base::{Edge, FolderId, List, Mem, Role};
use role_graph::{edges_between, edges_within};
use std::alloc::Global;

/// The five roles of a folder, in their order.
#[tactic(auto, unfolding(role_graph::specs::Roles::folder_roles, role_graph::specs::Roles::clear_of, role_graph::specs::Roles::sub_of, role_graph::specs::Roles::back_of, role_graph::specs::Roles::files_of, role_graph::specs::Roles::data_of))]
pub(crate) fn folder_roles(f: FolderId) -> [Role; 5]
    ensures { result ≡ roles_of_folder f.0 }
{
    [
        Role::Clear(f),
        Role::Sub(f),
        Role::Back(f),
        Role::Files(f),
        Role::Data(f),
    ]
}

/// The edges of a folder within itself and to its parent, in their order.
#[tactic(auto, unfolding(role_graph::specs::Edges::folder_edges, role_graph::specs::Edges::parent_edges, role_graph::specs::Edges::edge, role_graph::specs::Edges::edge_before, role_graph::specs::Edges::put_in_order, role_graph::specs::Edges::in_order, role_graph::specs::Roles::clear_of, role_graph::specs::Roles::sub_of, role_graph::specs::Roles::back_of, role_graph::specs::Roles::files_of, role_graph::specs::Roles::data_of))]
pub(crate) fn folder_edges_with_parent(f: FolderId, parent: FolderId) -> [Edge; 7]
    ensures { result ≡ in_order edge_before (edges_of_folder f.0 ++ edges_to_parent f.0 parent.0) }
{
    let [to_clear, to_sub, to_back, to_files, to_data] = edges_within(f);
    let [from_parent, to_parent] = edges_between(f, parent);
    [
        to_clear,
        to_sub,
        to_back,
        to_files,
        from_parent,
        to_data,
        to_parent,
    ]
}

/// These roles as a list.
pub(crate) fn roles_of(alloc: Global, roles: &[Role]) -> Mem<List<Role>>
    ensures { IfOk result (λ l. l.items ≡ roles.now) }
{
    let mut list = List::new(alloc);
    list.reserve(roles.len())?;
    for role in roles {
        list.push(*role)?;
    }
    Ok(list)
}

/// These edges as a list.
pub(crate) fn edges_of(alloc: Global, edges: &[Edge]) -> Mem<List<Edge>>
    ensures { IfOk result (λ l. l.items ≡ edges.now) }
{
    let mut list = List::new(alloc);
    list.reserve(edges.len())?;
    for edge in edges {
        list.push(*edge)?;
    }
    Ok(list)
}

/// These edges as a vector, which moves on into what is published.
pub(crate) fn added_edges(alloc: Global, edges: &[Edge]) -> Mem<Vec<Edge>>
    ensures { IfOk result (λ l. l.items ≡ edges.now) }
{
    let added = Vec::from_slice(alloc, edges)?;
    Ok(added)
}

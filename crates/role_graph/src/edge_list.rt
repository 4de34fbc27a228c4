//! The edges of all that stands, in their order.
ghost use Rattle.std.specs.Prelude.{◌≡◌, ◌<◌, ◌==◌, ◌++◌, [], cond, map, IfOk, OnOk};
ghost use Rattle.std.specs.List.{flat_map, list_any};
ghost use Rattle.cry_base.specs.Clearances.{clear_base, clear_number as number_of_file};
ghost use Rattle.role_graph.specs.Edges as spec;
ghost use Rattle.role_graph.specs.Edges.{edges as edges_of, edge_before, in_order, unordered, folder_edges, parent_edges, grant_edge};
ghost use Rattle.role_graph.specs.Edges.{clearance_edges, file_edge};
ghost use Rattle.role_graph.specs.PublicStore.{public_store};
ghost use Rattle.role_graph.specs.Roles.{role_id};

use crate::clearances::clearance_of;
use crate::kinds;
use cry_base::{Edge, FileId, FolderId, List, Mem, Role};
use folder_nodes::{FileRow, FolderRow, Shape};
use grant_book::{Grant, Grants, clear_number};
use sorted_table::Walk;
use std::alloc::Global;

/// The edges of the folders, the grants and the files: by kind, then by the number of the role that the edge leads from,
/// and then by that of the role that it leads to.
pub fn edges(alloc: Global, shape: &Shape, grants: &Grants) -> Mem<List<Edge>>
    ensures { IfOk result (λ l. l.items ≡ edges_of (public_store shape.now.tree grants.now.pairs)) }
{
    let all = unordered_edges(alloc, shape, grants)?;
    let sorted = in_their_order(all)?;
    to_list(alloc, &sorted)
}

/// The edges in their order.
pub fn in_their_order(mut edges: Vec<Edge>) -> Mem<Vec<Edge>>
    ensures { IfOk result (λ l. l.items ≡ in_order edge_before edges.items) }
{
    sort(&mut edges)?;
    Ok(edges)
}

/// The same edges as the folders, the grants and the files come. It doesn't sort them.
fn unordered_edges(alloc: Global, shape: &Shape, grants: &Grants) -> Mem<Vec<Edge>>
    ensures { IfOk result (λ l. l.items ≡ unordered (public_store shape.now.tree grants.now.pairs)) }
{
    let mut all = Vec::new(alloc);
    push_within(&mut all, shape.folders())?;
    push_between(&mut all, shape.folders())?;
    push_grants(&mut all, grants.pairs())?;
    push_files(&mut all, shape.files())?;
    push_clearances(&mut all, grants, shape.files())?;
    Ok(all)
}

/// Adds the edges of each folder within itself.
fn push_within(all: &mut Vec<Edge>, folders: Walk<'_, FolderRow>) -> Mem<()>
    ensures { OnOk result (all.new.items ≡ all.old.items ++ flat_map (λ r. folder_edges r.id.0) folders.entry) }
{
    for folder in folders {
        all.extend_from_slice(&edges_within(folder.id))?;
    }
    Ok(())
}

/// Adds the edges of each folder and its parent.
fn push_between(all: &mut Vec<Edge>, folders: Walk<'_, FolderRow>) -> Mem<()>
    ensures { OnOk result (all.new.items ≡ all.old.items
        ++ flat_map (λ r. cond (r.parent == 0) [] (parent_edges r.id.0 r.parent)) folders.entry) }
{
    for folder in folders {
        push_to_parent(all, folder)?;
    }
    Ok(())
}

/// Adds the edges of the folder and its parent, where it has one.
fn push_to_parent(all: &mut Vec<Edge>, folder: &FolderRow) -> Mem<()>
    ensures { OnOk result (all.new.items ≡ all.old.items
        ++ cond (folder.now.parent == 0) [] (parent_edges folder.now.id.0 folder.now.parent)) }
{
    if folder.parent != 0 {
        all.extend_from_slice(&edges_between(folder.id, FolderId(folder.parent)))?;
    }
    Ok(())
}

/// Adds the edge of each grant.
fn push_grants(all: &mut Vec<Edge>, pairs: &[Grant]) -> Mem<()>
    ensures { OnOk result (all.new.items ≡ all.old.items ++ map (λ g. grant_edge g.holder g.folder) pairs.now) }
{
    for pair in pairs {
        all.push(of_grant(pair))?;
    }
    Ok(())
}

/// Adds the edge of each file.
fn push_files(all: &mut Vec<Edge>, files: Walk<'_, FileRow>) -> Mem<()>
    ensures { OnOk result (all.new.items ≡ all.old.items ++ map (λ r. file_edge r.folder.0 r.id.0) files.entry) }
{
    for file in files {
        all.push(of_file(file))?;
    }
    Ok(())
}

/// Adds the edges of the clearance key of each file with a grant.
fn push_clearances(all: &mut Vec<Edge>, grants: &Grants, files: Walk<'_, FileRow>) -> Mem<()>
    ensures { OnOk result (all.new.items ≡ all.old.items ++ flat_map (λ r.
        cond (list_any (λ g. g.folder == number_of_file r.id.0) grants.now.pairs) (clearance_edges r.folder.0 r.id.0) []) files.entry) }
{
    for file in files {
        push_clearance(all, grants, file)?;
    }
    Ok(())
}

/// Adds the edges of the file's clearance key, where it has a grant.
fn push_clearance(all: &mut Vec<Edge>, grants: &Grants, file: &FileRow) -> Mem<()>
    ensures { OnOk result (all.new.items ≡ all.old.items
        ++ cond (list_any (λ g. g.folder == number_of_file file.now.id.0) grants.now.pairs)
        (clearance_edges file.now.folder.0 file.now.id.0) []) }
{
    if clearance_of(grants, file.id).is_some() {
        all.extend_from_slice(&edges_at_clearance(file.folder, file.id))?;
    }
    Ok(())
}

/// The edges of a folder within itself, in their order.
#[tactic(auto, unfolding(crate::specs::Edges::folder_edges, crate::specs::Edges::edge, crate::specs::Roles::clear_of, crate::specs::Roles::sub_of, crate::specs::Roles::back_of, crate::specs::Roles::files_of, crate::specs::Roles::data_of))]
pub fn edges_within(f: FolderId) -> [Edge; 5]
    ensures { result ≡ folder_edges f.0 }
{
    [
        kinds::owner_to_clear(f),
        kinds::clear_to_sub(f),
        kinds::sub_to_back(f),
        kinds::sub_to_files(f),
        kinds::back_to_data(f),
    ]
}

/// The edges between a folder and its parent, in their order.
#[tactic(auto, unfolding(crate::specs::Edges::parent_edges, crate::specs::Edges::edge, crate::specs::Roles::sub_of, crate::specs::Roles::back_of))]
pub fn edges_between(f: FolderId, parent: FolderId) -> [Edge; 2]
    ensures { result ≡ parent_edges f.0 parent.0 }
{
    [kinds::sub_to_sub(parent, f), kinds::back_to_back(f, parent)]
}

/// The edges of the clearance key of a file in the folder, in their order.
#[tactic(auto, unfolding(crate::specs::Edges::clearance_edges, crate::specs::Edges::edge, crate::specs::Roles::clear_of, crate::specs::Roles::back_of, crate::specs::Roles::file_role))]
pub fn edges_at_clearance(f: FolderId, x: FileId) -> [Edge; 3]
    requires { x.0 < clear_base }
    ensures { result ≡ clearance_edges f.0 x.0 }
{
    let c = clear_number(x);
    [
        kinds::owner_to_clear(c),
        kinds::clearance_to_file(c, x),
        kinds::clearance_to_back(c, f),
    ]
}

#[tactic(auto, unfolding(crate::specs::Edges::grant_edge, crate::specs::Edges::edge, crate::specs::Roles::holder_role, crate::specs::Roles::clear_of))]
fn of_grant(pair: &Grant) -> Edge
    ensures { result ≡ grant_edge pair.now.holder pair.now.folder }
{
    kinds::holder_to_clear(pair.holder, pair.folder)
}

#[tactic(auto, unfolding(crate::specs::Edges::file_edge, crate::specs::Edges::edge, crate::specs::Roles::files_of, crate::specs::Roles::file_role))]
fn of_file(file: &FileRow) -> Edge
    ensures { result ≡ file_edge file.now.folder.0 file.now.id.0 }
{
    kinds::files_to_file(file.folder, file.id)
}

/// Puts the edges in their order.
pub(crate) fn sort(edges: &mut Vec<Edge>) -> Mem<()>
    ensures { OnOk result (edges.new.items ≡ in_order edge_before edges.old.items) }
{
    edges.sort_by_key(|edge| (edge.kind, number_of(edge.from), number_of(edge.to)))?;
    Ok(())
}

/// The number of the folder, file or holder that the role is for, and 0 for the owner's.
#[tactic(auto, unfolding(crate::specs::Roles::role_id))]
pub fn number_of(role: Role) -> u32
    ensures { result ≡ role_id role }
{
    match role {
        Role::Owner => 0,
        Role::Holder(h) => h.0,
        Role::Clear(f) | Role::Sub(f) | Role::Back(f) | Role::Files(f) | Role::Data(f) => f.0,
        Role::File(x) => x.0,
    }
}

pub(crate) fn to_list(alloc: Global, edges: &[Edge]) -> Mem<List<Edge>>
    ensures { IfOk result (λ l. l.items ≡ edges.now) }
{
    let mut list = List::new(alloc);
    list.reserve(edges.len())?;
    for edge in edges {
        list.push(*edge)?;
    }
    Ok(list)
}

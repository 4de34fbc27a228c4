//! What whoever reads may see of each folder (docs/FORMAT.md, "Reading").
ghost use Rattle.std.specs.Prelude.{◌≡◌, ◌==◌, ◌||◌, ℕ, IfOk, OnOk, map};
ghost use Rattle.std.specs.HashSet.{contains};
ghost use Rattle.std.specs.List.{list_any};
ghost use Rattle.cry_base.specs.Store as store;
ghost use Rattle.cry_base.specs.Store.{folder_node, is_within};
ghost use Rattle.cry_base.specs.declared.ids.FolderId.{FolderId as TheFolder};
ghost use Rattle.folder_nodes.specs.Trees.{IsTree};
ghost use Rattle.grant_book.specs.Granted.{is_grant};
ghost use Rattle.log_visits.specs.Entries.{may_all};
ghost use Rattle.log_visits.specs.Opening.{IsNameless};
ghost use Rattle.log_visits.specs.Sights as spec;
ghost use Rattle.public_fold.specs.Journal.{Stand};
ghost use Rattle.public_fold.specs.Standing.{IsSeenAs};

use crate::ways::way_to;
use cry_base::{FolderId, HolderId, Mem};
use folder_nodes::{FolderRow, Shape};
use grant_book::Grants;
use public_fold::PublicState;
use role_graph::granted_place;
use sorted_table::Walk;
use std::alloc::Global;
use std::collections::HashSet;

/// Who reads a store.
#[derive(Clone, Copy, Debug, PartialEq, Eq)]
pub enum Viewer {
    Owner,
    Holder(HolderId),
}

/// What whoever reads may see of a folder.
#[derive(Clone, Copy, Debug, PartialEq, Eq)]
pub struct Sight {
    pub folder: FolderId,
    /// The number of the folder that it is in, and 0 for the root.
    pub parent: u32,
    /// How many names its path has.
    pub depth: u32,
    /// Whether it is come into by a link of its own.
    pub entry: bool,
    /// Whether all in it may be read.
    pub allowed: bool,
    /// Whether its name may be read.
    pub named: bool,
}

/// Notes the numbers of the folders.
fn note_each(above: &mut HashSet<u32>, folders: &[FolderId]) -> Mem<()>
    ensures { OnOk result ((f : ℕ) → contains spec.same_number above.new f
        ≡ (contains spec.same_number above.old f || list_any (λ (x : TheFolder). x.0 == f) folders.now)) }
{
    for folder in folders {
        above.insert(folder.0)?;
    }
    Ok(())
}

/// Notes the folder and all above it.
fn note_way(alloc: Global, above: &mut HashSet<u32>, shape: &Shape, folder: FolderId) -> Mem<()>
    ensures { OnOk result ((f : ℕ) → contains spec.same_number above.new f
        ≡ (contains spec.same_number above.old f || is_within shape.now.tree folder.0 f)) }
{
    let way = way_to(alloc, shape, folder)?;
    note_each(above, way.as_slice())
}

/// Notes the folder where a grant on the number is, and all above it.
fn note_grant(alloc: Global, above: &mut HashSet<u32>, shape: &Shape, number: FolderId) -> Mem<()>
    ensures { OnOk result ((f : ℕ) → contains spec.same_number above.new f
        ≡ (contains spec.same_number above.old f || spec.is_above shape.now.tree f number)) }
{
    match granted_place(number, shape) {
        Some(folder) => note_way(alloc, above, shape, folder),
        None => Ok(()),
    }
}

/// The folders that are granted to the holder or hold a file that is, and all above them.
fn above_grants(alloc: Global, shape: &Shape, grants: &Grants, h: HolderId) -> Mem<HashSet<u32>>
    ensures { IfOk result (spec.HasAbove shape.now.tree grants.now.pairs h.0) }
{
    let granted = grants.of_holder(h)?;
    let mut above = HashSet::new(alloc);
    for number in granted.as_slice() {
        note_grant(alloc, &mut above, shape, *number)?;
    }
    Ok(above)
}

/// Whether the holder has a grant on one of the folders.
fn has_one(grants: &Grants, h: HolderId, folders: &[FolderId]) -> bool
    ensures { result ≡ list_any (λ (x : TheFolder). list_any (is_grant h.0 x.0) grants.now.pairs) folders.now }
{
    folders.iter().any(|folder| grants.has(h, *folder))
}

/// Whether the holder may read all in the folder.
pub(crate) fn is_allowed(
    alloc: Global,
    shape: &Shape,
    grants: &Grants,
    h: HolderId,
    f: FolderId,
) -> Mem<bool>
    ensures { IfOk result (λ is. is ≡ may_all shape.now.tree grants.now.pairs h.0 f.0) }
{
    let way = way_to(alloc, shape, f)?;
    Ok(has_one(grants, h, way.as_slice()))
}

/// How many names the folder's path has, and 0 where it doesn't stand.
fn depth_of(shape: &Shape, f: FolderId) -> u32
    ensures { result ≡ store.depth_of shape.now.tree (folder_node f.0) }
{
    if shape.has_folder(f) {
        shape.depth(f)
    } else {
        0
    }
}

/// The owner may see all of a folder, and comes into it by its own link.
fn owners_sight(shape: &Shape, row: &FolderRow) -> Sight
    ensures { result ≡ spec.owners_sight shape.now.tree row.now }
{
    Sight {
        folder: row.id,
        parent: row.parent,
        depth: depth_of(shape, row.id),
        entry: true,
        allowed: true,
        named: true,
    }
}

fn owners_sights(alloc: Global, shape: &Shape, rows: Walk<'_, FolderRow>) -> Mem<Vec<Sight>>
    ensures { IfOk result (λ l. l.items ≡ map (spec.owners_sight shape.now.tree) rows.entry) }
{
    let mut sights = Vec::new(alloc);
    for row in rows {
        sights.push(owners_sight(shape, row))?;
    }
    Ok(sights)
}

/// A holder may see a folder that is granted with all in it, and the names of all above it and above a file that is granted.
fn holders_sight(
    alloc: Global,
    shape: &Shape,
    grants: &Grants,
    above: &HashSet<u32>,
    h: HolderId,
    row: &FolderRow,
) -> Mem<Sight>
    requires { spec.HasAbove shape.now.tree grants.now.pairs h.0 above.now }
    ensures { IfOk result (λ x. x ≡ spec.holders_sight shape.now.tree grants.now.pairs h.0 row.now) }
{
    let allowed = is_allowed(alloc, shape, grants, h, row.id)?;
    let leads_down = above.contains(&row.id.0);
    Ok(Sight {
        folder: row.id,
        parent: row.parent,
        depth: depth_of(shape, row.id),
        entry: grants.has(h, row.id),
        allowed,
        named: allowed | leads_down,
    })
}

fn holders_sights(
    alloc: Global,
    shape: &Shape,
    grants: &Grants,
    h: HolderId,
    rows: Walk<'_, FolderRow>,
) -> Mem<Vec<Sight>>
    ensures { IfOk result (λ l. l.items ≡ map (spec.holders_sight shape.now.tree grants.now.pairs h.0) rows.entry) }
{
    let above = above_grants(alloc, shape, grants, h)?;
    let mut sights = Vec::new(alloc);
    for row in rows {
        sights.push(holders_sight(alloc, shape, grants, &above, h, row)?)?;
    }
    Ok(sights)
}

/// A law: what a state holds of a tree has no names.
pub fn is_nameless(state: &PublicState)
    ensures { IsNameless state.now.tree }
{
    let shape = state.shape();
    let _folders = shape.folders();
    let _files = shape.files();
}

/// What whoever reads may see of each folder, in the order of their numbers.
pub fn all_sights(alloc: Global, state: &PublicState, viewer: Viewer) -> Mem<Vec<Sight>>
    ensures tree { IsTree state.now.tree }
    ensures sights { IfOk result (λ l. (at : Stand) → IsSeenAs state.now at → spec.MayRead at.store (spec.plain_viewer viewer)
        → spec.AreSights at.store (spec.plain_viewer viewer) l.items) }
{
    let shape = state.shape();
    shape.is_tree();
    let rows = shape.folders();
    match viewer {
        Viewer::Owner => owners_sights(alloc, shape, rows),
        Viewer::Holder(h) => holders_sights(alloc, shape, state.grants(), h, rows),
    }
}

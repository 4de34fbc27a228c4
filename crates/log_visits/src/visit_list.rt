//! The visits of whoever reads, in their order (docs/FORMAT.md, "Reading" and "Opening for writing").
ghost use Rattle.std.specs.Prelude.{◌≡◌, ◌++◌, [], ◌∷◌, Bool, IfOk, List, OnOk, filter, map};
ghost use Rattle.std.specs.List.{AllByRecursion, flat_map, range_with_len};
ghost use Rattle.cry_base.specs.Sets.{In};
ghost use Rattle.cry_base.specs.Store.{HolderEntry, Store};
ghost use Rattle.cry_base.specs.declared.roles.Edge.{Edge as TheEdge};
ghost use Rattle.cry_base.specs.declared.roles.Role.{Role as TheRole};
ghost use Rattle.folder_nodes.specs.Bare.{file_of_row};
ghost use Rattle.folder_nodes.specs.Trees.{IsTree};
ghost use Rattle.folder_nodes.specs.declared.rows.FileRow.{FileRow as TheFileRow};
ghost use Rattle.log_visits.specs.Entries.{AreEntryFiles};
ghost use Rattle.log_visits.specs.Listing as list;
ghost use Rattle.log_visits.specs.Opening.{IsFor, IsNameless, Tells, plain_visit, is_no_holders, owner_list};
ghost use Rattle.log_visits.specs.Sights as sight;
ghost use Rattle.log_visits.specs.Visits as spec;
ghost use Rattle.log_visits.specs.Visits.Visit.{ToHolder};
ghost use Rattle.log_visits.specs.declared.visit_list.Visit.TheVariants.{Key, Link};
ghost use Rattle.public_fold.specs.Journal.{Stand};
ghost use Rattle.public_fold.specs.Standing.{IsSeenAs};
ghost use Rattle.role_graph.specs.Edges.{in_order};
ghost use Rattle.role_graph.specs.Rights.Who.{TheOwner};
ghost use Rattle.role_graph.specs.Roles.{role_id};

use crate::entry_files::EntryFile;
use crate::sights::{Sight, Viewer, all_sights, is_nameless};
use cry_base::{Edge, FileId, FolderId, HolderId, Mem};
use folder_nodes::FileRow;
use grant_book::Grants;
use public_fold::PublicState;
use role_graph::{clearance_of, kinds};
use sorted_table::Walk;
use std::alloc::Global;
use std::collections::HashMap;

/// One visit.
#[derive(Clone, Copy, Debug, PartialEq, Eq)]
pub enum Visit {
    /// Opens the last link of the edge.
    Link { edge: Edge },
    /// Opens the folder's name.
    Name { folder: FolderId },
    /// Opens the file's name and bytes.
    Bytes { file: FileId },
    /// Opens the holder's key.
    Key { holder: HolderId },
}

/// The visits of an owner, but for those to files, which are made from the rows of files (`of_file`): most are.
#[derive(Drop)]
pub(crate) struct OwnerVisits {
    /// Those up to the names of folders.
    pub(crate) names: Vec<Visit>,
    /// Those to the holders' keys and to the files' clearances, which come last.
    pub(crate) keys: Vec<Visit>,
}

/// What two visits to a folder are for.
#[derive(Clone, Copy, Debug, PartialEq, Eq)]
pub(crate) enum Part {
    /// Into the folder.
    Entry,
    /// On to its way back and to its files.
    Ways,
    /// Its name.
    Title,
}

/// The edge by which each folder is come up into: from the first in it by number that is named, or where none is from its first entry
/// file.
type WaysUp = HashMap<u32, Edge>;

fn link(edge: Edge) -> Visit
    ensures { result ≡ Link edge }
{
    Visit::Link { edge }
}

/// The link by which whoever reads comes into a folder, or into a file with its clearance number.
#[tactic(auto, unfolding(role_graph::specs::Roles::clear_of, role_graph::specs::Roles::holder_role))]
fn into(viewer: Viewer, f: FolderId) -> Visit
    ensures { result ≡ list.entry_link viewer f }
{
    match viewer {
        Viewer::Owner => link(kinds::owner_to_clear(f)),
        Viewer::Holder(h) => link(kinds::holder_to_clear(h, f)),
    }
}

#[tactic(auto, unfolding(role_graph::specs::Roles::clear_of, role_graph::specs::Roles::sub_of, role_graph::specs::Roles::back_of, role_graph::specs::Roles::files_of, role_graph::specs::Roles::data_of))]
fn in_folder(viewer: Viewer, part: Part, f: FolderId) -> [Visit; 2]
    ensures { result ≡ list.folder_part viewer part f }
{
    match part {
        Part::Entry => [into(viewer, f), link(kinds::clear_to_sub(f))],
        Part::Ways => [link(kinds::sub_to_back(f)), link(kinds::sub_to_files(f))],
        Part::Title => [link(kinds::back_to_data(f)), Visit::Name { folder: f }],
    }
}

/// The two visits to a file: its key, and its name and bytes.
#[tactic(auto, unfolding(role_graph::specs::Roles::files_of, role_graph::specs::Roles::file_role))]
pub(crate) fn of_file(row: &FileRow) -> [Visit; 2]
    ensures { result ≡ list.file_part row.now.folder row.now.id }
{
    [
        link(kinds::files_to_file(row.folder, row.id)),
        Visit::Bytes { file: row.id },
    ]
}

/// Whether the folder has this part for whoever reads.
fn has_part(part: Part, sight: &Sight) -> bool
    ensures { result ≡ list.has_part part sight.now }
{
    match part {
        Part::Entry => sight.entry,
        Part::Ways => sight.allowed,
        Part::Title => sight.named,
    }
}

fn push_part(visits: &mut Vec<Visit>, viewer: Viewer, part: Part, sight: &Sight) -> Mem<()>
    ensures { OnOk result (visits.new.items ≡ visits.old.items ++ list.part_of viewer part sight.now) }
{
    if has_part(part, sight) {
        visits.extend_from_slice(&in_folder(viewer, part, sight.folder))?;
    }
    Ok(())
}

/// Adds a visit into the clearance of each entry file.
fn push_entry_files(visits: &mut Vec<Visit>, viewer: Viewer, entries: &[EntryFile]) -> Mem<()>
    ensures { OnOk result (visits.new.items ≡ visits.old.items ++ map (list.entry_file_link viewer) entries.now) }
{
    for entry in entries {
        visits.push(into(viewer, entry.clearance))?;
    }
    Ok(())
}

/// Adds two visits for each folder that has the part.
fn push_folders(visits: &mut Vec<Visit>, viewer: Viewer, part: Part, sights: &[Sight]) -> Mem<()>
    ensures { OnOk result (visits.new.items ≡ visits.old.items ++ flat_map (list.part_of viewer part) sights.now) }
{
    for sight in sights {
        push_part(visits, viewer, part, sight)?;
    }
    Ok(())
}

/// The folders that are allowed and no entry folders.
fn lower_folders(alloc: Global, sights: &[Sight]) -> Mem<Vec<Sight>>
    ensures { IfOk result (λ l. l.items ≡ filter sight.is_lower sights.now) }
{
    let mut found = Vec::new(alloc);
    for sight in sights {
        if sight.allowed && !sight.entry {
            found.push(*sight)?;
        }
    }
    Ok(found)
}

/// Puts shallower folders first, and then those with lower numbers.
fn sort_shallow(found: &mut Vec<Sight>) -> Mem<()>
    ensures { OnOk result (found.new.items ≡ in_order sight.is_shallower found.old.items) }
{
    found.sort_by_key(|sight| (sight.depth, sight.folder.0))?;
    Ok(())
}

/// Adds a visit for each folder, from the one that it is in.
#[tactic(auto, unfolding(role_graph::specs::Roles::sub_of))]
fn push_lower(visits: &mut Vec<Visit>, folders: &[Sight]) -> Mem<()>
    ensures { OnOk result (visits.new.items ≡ visits.old.items ++ map list.from_parent folders.now) }
{
    for sight in folders {
        let parent = FolderId(sight.parent);
        visits.push(link(kinds::sub_to_sub(parent, sight.folder)))?;
    }
    Ok(())
}

/// The folders that are named and not allowed.
fn upper_folders(alloc: Global, sights: &[Sight]) -> Mem<Vec<Sight>>
    ensures { IfOk result (λ l. l.items ≡ filter sight.is_upper sights.now) }
{
    let mut found = Vec::new(alloc);
    for sight in sights {
        if sight.named && !sight.allowed {
            found.push(*sight)?;
        }
    }
    Ok(found)
}

/// Puts deeper folders first, and then those with lower numbers.
fn sort_deep(found: &mut Vec<Sight>) -> Mem<()>
    ensures { OnOk result (found.new.items ≡ in_order sight.is_deeper found.old.items) }
{
    found.sort_by_key(|sight| (u32::MAX - sight.depth, sight.folder.0))?;
    Ok(())
}

/// Notes an edge for the folder that it leads up into, where none was noted for that before.
fn note_way(first: &mut WaysUp, f: u32, edge: Edge) -> Mem<()>
    requires { role_id edge.to ≡ f }
    ensures { OnOk result ((so_far : List TheEdge) → list.AreFirst first.old so_far → list.AreFirst first.new (so_far ++ edge ∷ [])) }
{
    if first.contains_key(&f) {
        return Ok(());
    }
    first.insert(f, edge)?;
    Ok(())
}

/// Notes the way up from a folder that is named.
#[tactic(auto, unfolding(role_graph::specs::Roles::back_of, role_graph::specs::Roles::role_id, role_graph::specs::Edges::edge))]
fn note_child(first: &mut WaysUp, sight: &Sight) -> Mem<()>
    ensures { OnOk result ((so_far : List TheEdge) → list.AreFirst first.old so_far
        → list.AreFirst first.new (so_far ++ list.child_edges sight.now)) }
{
    let is_named = sight.named;
    if !is_named {
        return Ok(());
    }
    let edge = kinds::back_to_back(sight.folder, FolderId(sight.parent));
    note_way(first, sight.parent, edge)?;
    Ok(())
}

/// Notes the way up from an entry file.
#[tactic(auto, unfolding(role_graph::specs::Roles::clear_of, role_graph::specs::Roles::back_of, role_graph::specs::Roles::role_id, role_graph::specs::Edges::edge))]
fn note_entry(first: &mut WaysUp, entry: &EntryFile) -> Mem<()>
    ensures { OnOk result ((so_far : List TheEdge) → list.AreFirst first.old so_far
        → list.AreFirst first.new (so_far ++ list.entry_up entry.now ∷ [])) }
{
    let edge = kinds::clearance_to_back(entry.clearance, entry.folder);
    note_way(first, entry.folder.0, edge)?;
    Ok(())
}

/// Notes the ways up from the folders that are named.
fn note_children(first: &mut WaysUp, sights: &[Sight]) -> Mem<()>
    ensures { OnOk result ((so_far : List TheEdge) → list.AreFirst first.old so_far
        → list.AreFirst first.new (so_far ++ flat_map list.child_edges sights.now)) }
{
    for sight in sights {
        note_child(first, sight)?;
    }
    Ok(())
}

/// Notes the ways up from the entry files.
fn note_entries(first: &mut WaysUp, entries: &[EntryFile]) -> Mem<()>
    ensures { OnOk result ((so_far : List TheEdge) → list.AreFirst first.old so_far
        → list.AreFirst first.new (so_far ++ map list.entry_up entries.now)) }
{
    for entry in entries {
        note_entry(first, entry)?;
    }
    Ok(())
}

fn ways_up(alloc: Global, sights: &[Sight], entries: &[EntryFile]) -> Mem<WaysUp>
    ensures { IfOk result (λ first. list.AreFirst first (list.edges_up sights.now entries.now)) }
{
    let mut first = HashMap::new(alloc);
    note_children(&mut first, sights)?;
    note_entries(&mut first, entries)?;
    Ok(first)
}

/// Adds a visit for a folder, by the edge that was noted for it.
fn push_from(visits: &mut Vec<Visit>, first: &WaysUp, f: FolderId) -> Mem<()>
    ensures { OnOk result ((ups : List TheEdge) → list.AreFirst first.now ups
        → visits.new.items ≡ visits.old.items ++ list.from_below ups f) }
{
    if let Some(edge) = first.get(&f.0) {
        visits.push(link(*edge))?;
    }
    Ok(())
}

/// Adds a visit for each of some folders, by the edges that were noted for them.
fn push_upper(visits: &mut Vec<Visit>, first: &WaysUp, folders: &[Sight]) -> Mem<()>
    ensures { OnOk result ((ups : List TheEdge) → list.AreFirst first.now ups
        → visits.new.items ≡ visits.old.items ++ flat_map (λ x. list.from_below ups x.folder) folders.now) }
{
    for sight in folders {
        push_from(visits, first, sight.folder)?;
    }
    Ok(())
}

/// The visits up to the names of folders: into each entry folder and each entry file, then into the other folders that are allowed, then
/// to what is beside each that is allowed, then up into those that are named alone, and last to each name.
pub fn visits_to_names(
    alloc: Global,
    viewer: Viewer,
    sights: &[Sight],
    entries: &[EntryFile],
) -> Mem<Vec<Visit>>
    ensures visits { IfOk result (λ l. (s : Store) → IsTree s → sight.AreSights s (sight.plain_viewer viewer) sights.now
        → AreEntryFiles s (sight.plain_viewer viewer) entries.now
        → map plain_visit l.items ≡ spec.visits_to_names s (sight.plain_viewer viewer)) }
    ensures told { IfOk result (λ l. (told : TheRole → Bool) → Tells told viewer → AllByRecursion (IsFor told) (map plain_visit l.items)) }
{
    let mut lower = lower_folders(alloc, sights)?;
    sort_shallow(&mut lower)?;
    let mut upper = upper_folders(alloc, sights)?;
    sort_deep(&mut upper)?;
    let first = ways_up(alloc, sights, entries)?;
    let mut visits = Vec::new(alloc);
    push_folders(&mut visits, viewer, Part::Entry, sights)?;
    push_entry_files(&mut visits, viewer, entries)?;
    push_lower(&mut visits, lower.as_slice())?;
    push_folders(&mut visits, viewer, Part::Ways, sights)?;
    push_upper(&mut visits, &first, upper.as_slice())?;
    push_folders(&mut visits, viewer, Part::Title, sights)?;
    Ok(visits)
}

/// A visit for each holder up to the last.
fn key_visits(alloc: Global, last: u32) -> Mem<Vec<Visit>>
    ensures { IfOk result (λ l. l.items ≡ map (λ h. Key (record { 0 = h })) (range_with_len 1 last)) }
{
    let mut visits = Vec::new(alloc);
    for before in 0..last {
        visits.push(Visit::Key {
            holder: HolderId(before + 1),
        })?;
    }
    Ok(visits)
}

/// Adds the visit into the file's clearance, where it has a grant.
#[tactic(auto, unfolding(role_graph::specs::Roles::clear_of))]
fn push_clearance(visits: &mut Vec<Visit>, grants: &Grants, row: &FileRow) -> Mem<()>
    ensures { OnOk result (visits.new.items ≡ visits.old.items ++ list.clearance_of grants.now.pairs row.now) }
{
    match clearance_of(grants, row.id) {
        Some(clearance) => {
            visits.push(link(kinds::owner_to_clear(clearance)))?;
            Ok(())
        }
        None => Ok(()),
    }
}

/// Adds a visit into the clearance of each of these files that has one.
fn push_clearances(visits: &mut Vec<Visit>, grants: &Grants, files: Walk<'_, FileRow>) -> Mem<()>
    ensures { OnOk result (visits.new.items ≡ visits.old.items ++ flat_map (list.clearance_of grants.now.pairs) files.entry) }
{
    for row in files {
        push_clearance(visits, grants, row)?;
    }
    Ok(())
}

/// All visits of the owner but for those to files, and then the holders' keys and the files' clearances.
pub(crate) fn owner_visits(alloc: Global, state: &PublicState) -> Mem<OwnerVisits>
    ensures visits { IfOk result (λ l. (at : Stand) (rows : List TheFileRow) → state.now.tree.files ≡ map file_of_row rows
        → IsSeenAs state.now at → owner_list l rows ≡ spec.all_visits at.store TheOwner ++ spec.writing_visits at.store) }
    ensures nameless { IfOk result (λ _. IsNameless state.now.tree) }
    ensures owners { IfOk result (λ l. (rows : List TheFileRow) → AllByRecursion (IsFor is_no_holders) (owner_list l rows)) }
    ensures holders { IfOk result (λ l. (at : Stand) (rows : List TheFileRow) (e : HolderEntry) → IsSeenAs state.now at
        → In e at.store.holders → In (ToHolder e.number) (owner_list l rows)) }
{
    is_nameless(state);
    let seen = all_sights(alloc, state, Viewer::Owner)?;
    let names = visits_to_names(alloc, Viewer::Owner, seen.as_slice(), &[])?;
    let grants = state.grants();
    let mut keys = key_visits(alloc, grants.holders())?;
    push_clearances(&mut keys, grants, state.shape().files())?;
    Ok(OwnerVisits { names, keys })
}

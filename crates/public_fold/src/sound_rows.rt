//! The tree and the grants of a state's rows, where they are sound.
ghost use Rattle.std.specs.Prelude.{◌≡◌, ◌↔◌, ◌<◌, ◌^◌, ◌||◌, length, map, is_some, IfOk, IsTrue, MatchOption};
ghost use Rattle.std.specs.List.{list_all};
ghost use Rattle.cry_base.specs.Sets.{In};
ghost use Rattle.cry_base.specs.Store.{GrantEntry};
ghost use Rattle.folder_nodes.specs.Trees.{IsTree};
ghost use Rattle.grant_book.specs.Fitting.{CanStand};
ghost use Rattle.index_format.specs.Plain.{plain_state};
ghost use Rattle.index_format.specs.Writable.{IsWritable};
ghost use Rattle.move_plan.specs.Seen.{seen_store};
ghost use Rattle.role_graph.specs.RightsByReach.{MayBeGranted};
ghost use Rattle.public_fold.specs.RowTests.{bare_file, bare_folder, can_be_granted, has_clear_number};
ghost use Rattle.public_fold.specs.States.{AreSmall, HasVersion, checks_of, grant_of_row, pairs_of_rows, tree_of};

use cry_base::{FileId, FolderId, HolderId, List, Mem};
use folder_nodes::Shape;
use grant_book::{Grant, Grants, file_of};
use index_format::{CheckRow, FileRow, FolderRow, GrantRow, StateNumbers, StateRows};
use std::alloc::Global;

/// What a state's numbers are below.
const SMALL: u32 = 1 << 30;

/// Whether the numbers are small, and the version is one that there is: 0 exactly where no folder was made, and nothing else was.
pub(crate) fn are_sound_numbers(numbers: &StateNumbers) -> bool
    ensures { IsTrue result ↔ (AreSmall numbers.now × HasVersion numbers.now) }
{
    are_small(numbers) && has_version(numbers)
}

fn are_small(numbers: &StateNumbers) -> bool
    ensures { IsTrue result ↔ AreSmall numbers.now }
{
    numbers.epoch < SMALL
        && numbers.count < SMALL
        && numbers.folders_made < SMALL
        && numbers.files_made < SMALL
        && numbers.holders_made < SMALL
}

fn has_version(numbers: &StateNumbers) -> bool
    ensures { IsTrue result ↔ HasVersion numbers.now }
{
    if numbers.folders_made == 0 {
        numbers.version == 0 && numbers.files_made == 0 && numbers.holders_made == 0
    } else {
        numbers.version == 1 || numbers.version == 2
    }
}

/// The folders and the files, where they are a tree.
pub(crate) fn sound_shape(alloc: Global, rows: &StateRows) -> Mem<Option<Shape>>
    ensures { IfOk result (λ made. MatchOption made (IsTree (tree_of (plain_state rows.now)) → ⊥)
        (λ shape. IsTree (tree_of (plain_state rows.now)) × (shape.tree ≡ tree_of (plain_state rows.now)))) }
{
    let folders = folder_rows(alloc, rows.folders.as_slice())?;
    let files = file_rows(alloc, rows.files.as_slice())?;
    let numbers = rows.numbers;
    Shape::restore(
        alloc,
        numbers.folders_made,
        numbers.files_made,
        folders,
        files,
    )
}

fn folder_rows(alloc: Global, rows: &[FolderRow]) -> Mem<List<folder_nodes::FolderRow>>
    ensures { IfOk result (λ l. l.items ≡ map bare_folder rows.now) }
{
    let mut found = List::new(alloc);
    found.reserve(rows.len())?;
    for row in rows {
        let id = FolderId(row.id);
        found.push(folder_nodes::FolderRow {
            id,
            parent: row.parent,
        })?;
    }
    Ok(found)
}

fn file_rows(alloc: Global, rows: &[FileRow]) -> Mem<List<folder_nodes::FileRow>>
    ensures { IfOk result (λ l. l.items ≡ map bare_file rows.now) }
{
    let mut found = List::new(alloc);
    found.reserve(rows.len())?;
    for row in rows {
        let id = FileId(row.id);
        let folder = FolderId(row.folder);
        found.push(folder_nodes::FileRow { id, folder })?;
    }
    Ok(found)
}

/// The holders and the grants, where the grants are in their order and their holders were made.
pub(crate) fn sound_grants(alloc: Global, rows: &StateRows) -> Mem<Option<Grants>>
    requires { IsWritable (plain_state rows.now) }
    ensures { IfOk result (λ made. MatchOption made (CanStand (checks_of (plain_state rows.now)) (pairs_of_rows (plain_state rows.now)) → ⊥)
        (λ g. CanStand (checks_of (plain_state rows.now)) (pairs_of_rows (plain_state rows.now))
        × (g.checks ≡ checks_of (plain_state rows.now)) × (g.pairs ≡ pairs_of_rows (plain_state rows.now)))) }
{
    let checks = checks(alloc, rows.checks.as_slice())?;
    let grants = grants(alloc, rows.grants.as_slice())?;
    Grants::restore(alloc, checks.as_slice(), grants.as_slice())
}

fn checks(alloc: Global, rows: &[CheckRow]) -> Mem<List<[u8; 32]>>
    ensures { IfOk result (λ l. l.items ≡ map (λ row. row.0) rows.now) }
{
    let mut found = List::new(alloc);
    found.reserve(rows.len())?;
    for row in rows {
        found.push(row.0)?;
    }
    Ok(found)
}

fn grants(alloc: Global, rows: &[GrantRow]) -> Mem<List<Grant>>
    ensures { IfOk result (λ l. l.items ≡ map grant_of_row rows.now) }
{
    let mut found = List::new(alloc);
    found.reserve(rows.len())?;
    for row in rows {
        found.push(Grant::new(HolderId(row.holder), FolderId(row.folder)))?;
    }
    Ok(found)
}

/// Whether each grant is on a folder or a file that stands.
pub(crate) fn are_granted(shape: &Shape, grants: &Grants) -> bool
    ensures { IsTrue result ↔ ((g : GrantEntry) → In g grants.now.pairs → MayBeGranted (seen_store shape.now.tree grants.now) g.folder) }
{
    all_granted(shape, grants.pairs())
}

fn all_granted(shape: &Shape, pairs: &[Grant]) -> bool
    ensures { result ≡ list_all (λ (g : GrantEntry). can_be_granted shape.now.tree g.folder) pairs.now }
{
    pairs.iter().all(|pair| can_be_granted(shape, pair.folder))
}

fn can_be_granted(shape: &Shape, folder: FolderId) -> bool
    ensures { result ≡ can_be_granted shape.now.tree folder.0 }
{
    shape.has_folder(folder) || has_clearance(shape, folder)
}

/// Whether a file that stands has the clearance number.
pub(crate) fn has_clearance(shape: &Shape, folder: FolderId) -> bool
    ensures { result ≡ has_clear_number shape.now.tree folder.0 }
{
    match file_of(folder) {
        Some(x) => shape.folder_of(x).is_some(),
        None => false,
    }
}

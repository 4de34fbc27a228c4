//! A shape from its rows.
ghost use Rattle.std.specs.Prelude.{◌≡◌, ◌↔◌, map, length, IfOk, IsTrue, MatchOption};
ghost use Rattle.std.specs.List.{list_all};
ghost use Rattle.cry_base.specs.Limits.{way_turns};
ghost use Rattle.cry_base.specs.Store.{way_up};
ghost use Rattle.folder_nodes.specs.Bare.{bare_store, folder_of_row};
ghost use Rattle.folder_nodes.specs.Restoring as restoring;
ghost use Rattle.folder_nodes.specs.Trees.{IsTree};

use crate::grouped::Grouped;
use crate::rows::FolderKey;
use crate::{FileRow, FolderRow, Shape};
use cry_base::{DEPTH, List, Mem, ROOT};
use sorted_table::Table;
use std::alloc::Global;

impl Shape {
    /// The shape with these rows and counts. It is `None` exactly where they are no tree: the numbers of each list
    /// ascend and lie from 1 to the count, folder 1 stands where any folder was made, it alone is in no folder, from
    /// each other folder the parents lead to it, the folder of each file stands, and no path has more than 64 names.
    pub fn restore(
        alloc: Global,
        folders_made: u32,
        files_made: u32,
        folders: List<FolderRow>,
        files: List<FileRow>,
    ) -> Mem<Option<Shape>>
        ensures { IfOk result (λ made. MatchOption made (IsTree (bare_store folders.items files.items folders_made files_made)
            → ⊥) (λ shape. IsTree (bare_store folders.items files.items folders_made files_made)
            × (shape.tree ≡ bare_store folders.items files.items folders_made files_made))) }
    {
        let Some(folders) = Table::of_rows(alloc, folders.as_slice())? else {
            return Ok(None);
        };
        let Some(files) = Table::of_rows(alloc, files.as_slice())? else {
            return Ok(None);
        };
        if !are_tree(&folders, &files, folders_made, files_made) {
            return Ok(None);
        }
        let folders = Grouped::of_table(alloc, folders)?;
        let files = Grouped::of_table(alloc, files)?;
        Ok(Some(Shape {
            folders,
            files,
            folders_made,
            files_made,
        }))
    }
}

/// Whether folders and files, by ascending numbers, are a tree.
fn are_tree(
    folders: &Table<FolderRow>,
    files: &Table<FileRow>,
    folders_made: u32,
    files_made: u32,
) -> bool
    ensures { IsTrue result ↔ IsTree (bare_store folders.now.rows files.now.rows folders_made files_made) }
{
    let folder_rows = folders.as_slice();
    let file_rows = files.as_slice();
    if !are_numbered(folder_rows, folders_made) {
        return false;
    }
    if !are_files_numbered(file_rows, files_made) {
        return false;
    }
    if !has_root(folders, folders_made) {
        return false;
    }
    if !are_placed(folder_rows, folders) {
        return false;
    }
    are_files_placed(file_rows, folders)
}

fn are_numbered(rows: &[FolderRow], made: u32) -> bool
    ensures { result ≡ list_all (λ r. restoring.is_numbered made r.id.0) rows.now }
{
    rows.iter().all(|row| 1 <= row.id.0 && row.id.0 <= made)
}

fn are_files_numbered(rows: &[FileRow], made: u32) -> bool
    ensures { result ≡ list_all (λ r. restoring.is_numbered made r.id.0) rows.now }
{
    rows.iter().all(|row| 1 <= row.id.0 && row.id.0 <= made)
}

fn are_placed(rows: &[FolderRow], folders: &Table<FolderRow>) -> bool
    ensures { result ≡ list_all (λ r. restoring.is_placed (map folder_of_row folders.now.rows) (folder_of_row r)) rows.now }
{
    rows.iter().all(|row| is_placed(folders, *row))
}

fn are_files_placed(rows: &[FileRow], folders: &Table<FolderRow>) -> bool
    ensures { result ≡ list_all (λ r. restoring.is_file_placed (map folder_of_row folders.now.rows) r.folder.0) rows.now }
{
    rows.iter().all(|row| is_file_placed(folders, row.folder.0))
}

fn has_root(folders: &Table<FolderRow>, made: u32) -> bool
    ensures { result ≡ restoring.has_root (map folder_of_row folders.now.rows) made }
{
    made == 0 || stands(folders, ROOT.0)
}

fn is_placed(folders: &Table<FolderRow>, row: FolderRow) -> bool
    ensures { result ≡ restoring.is_placed (map folder_of_row folders.now.rows) (folder_of_row row) }
{
    has_its_parent(folders, row) && levels(folders, row.id.0) <= DEPTH + 1
}

/// Whether the root has no parent, and another folder has one.
fn has_its_parent(folders: &Table<FolderRow>, row: FolderRow) -> bool
    ensures { result ≡ restoring.has_its_parent (map folder_of_row folders.now.rows) (folder_of_row row) }
{
    if row.id == ROOT {
        row.parent == 0
    } else {
        stands(folders, row.parent)
    }
}

fn is_file_placed(folders: &Table<FolderRow>, f: u32) -> bool
    ensures { result ≡ restoring.is_file_placed (map folder_of_row folders.now.rows) f }
{
    stands(folders, f) && levels(folders, f) <= DEPTH
}

fn stands(folders: &Table<FolderRow>, f: u32) -> bool
    ensures { result ≡ restoring.stands_among (map folder_of_row folders.now.rows) f }
{
    match folders.find(&FolderKey(f)) {
        Some(_) => true,
        None => false,
    }
}

/// How many folders are on the way up from one that is counted too: 66 where there are more.
fn levels(folders: &Table<FolderRow>, f: u32) -> u32
    ensures { result ≡ length (way_up way_turns (map folder_of_row folders.now.rows) f) }
{
    let mut here = f;
    for levels in 0..66u32 {
        let Some(row) = folders.find(&FolderKey(here)) else {
            return levels;
        };
        here = row.parent;
    }
    66
}

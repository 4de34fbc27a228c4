//! Which children of a folder are tried for a name.
ghost use Rattle.std.specs.Prelude.{◌≡◌, ◌&&◌, ℕ, true, not, ◌==◌, map, find, option_map};
ghost use Rattle.std.specs.List.{list_any};
ghost use Rattle.cry_base.specs.Naming.{is_name};
ghost use Rattle.cry_base.specs.Sets.{In};
ghost use Rattle.cry_base.specs.Store.{folder_entry, file_entry};
ghost use Rattle.folder_nodes.specs.Spelling as spelling;
ghost use Rattle.folder_nodes.specs.Titles.{tree_store};
ghost use Rattle.folder_nodes.specs.declared.spots.Spot.{Spot as TheSpot};
ghost use Rattle.sorted_table.specs.Rows.{IsRising};

use crate::spelling::name_of;
use crate::spots::{Spots, are_at_most, are_fewer};
use crate::{Names, Shape};
use cry_base::{FileId, FolderId, Node};

/// Up to so many children are tried without a look at which others have the name.
const FEW: usize = 8;

/// Numbers of folders, in ascending order, among which are all that are in the folder and have the name: its children or
/// those that have the name, whichever are fewer.
pub(crate) fn folders_to_try<'a>(
    shape: &'a Shape,
    names: &'a Names,
    f: u32,
    name: &[u8],
) -> Spots<'a>
    requires { is_name name.now ≡ true }
    ensures rising { IsRising (λ (q : TheSpot). q.id) result }
    ensures all { (k : ℕ) → spelling.is_folder_in f name.now (folder_entry (tree_store shape.now.tree names.now) k) ≡ true
        → In k (map (λ (q : TheSpot). q.id) result) }
{
    shape.is_tree();
    let inside = shape.folders_inside(f);
    if are_at_most(&inside, FEW) {
        return inside;
    }
    let named = names.folders_named(name);
    if are_fewer(&named, &inside) {
        return named;
    }
    inside
}

/// Numbers of files, in ascending order, among which are all that are in the folder and have the name.
pub(crate) fn files_to_try<'a>(shape: &'a Shape, names: &'a Names, f: u32, name: &[u8]) -> Spots<'a>
    requires { is_name name.now ≡ true }
    ensures rising { IsRising (λ (q : TheSpot). q.id) result }
    ensures all { (k : ℕ) → spelling.is_file_in f name.now (file_entry (tree_store shape.now.tree names.now) k) ≡ true
        → In k (map (λ (q : TheSpot). q.id) result) }
{
    shape.is_tree();
    let inside = shape.files_inside(f);
    if are_at_most(&inside, FEW) {
        return inside;
    }
    let named = names.files_named(name);
    if are_fewer(&named, &inside) {
        return named;
    }
    inside
}

/// Whether the folder g is in the folder f and has the name.
pub(crate) fn is_folder_in(shape: &Shape, names: &Names, g: u32, f: u32, name: &[u8]) -> bool
    ensures { result ≡ spelling.is_folder_in f name.now (folder_entry (tree_store shape.now.tree names.now) g) }
{
    let Some(row) = shape.folder_row(g) else {
        return false;
    };
    if row.parent != f {
        return false;
    }
    name_of(names, Node::Folder(FolderId(g))) == name
}

/// Whether the file is in the folder f and has the name.
pub(crate) fn is_file_in(shape: &Shape, names: &Names, x: u32, f: u32, name: &[u8]) -> bool
    ensures { result ≡ spelling.is_file_in f name.now (file_entry (tree_store shape.now.tree names.now) x) }
{
    let Some(row) = shape.file_row(x) else {
        return false;
    };
    if row.folder.0 != f {
        return false;
    }
    name_of(names, Node::File(FileId(x))) == name
}

/// The first of the folders that is in the folder f and has the name.
pub(crate) fn first_folder(
    mut spots: Spots<'_>,
    shape: &Shape,
    names: &Names,
    f: u32,
    name: &[u8],
) -> Option<u32>
    ensures { result ≡ option_map (λ (q : TheSpot). q.id)
        (find (λ q. spelling.is_folder_in f name.now (folder_entry (tree_store shape.now.tree names.now) q.id)) spots.entry) }
{
    let first = spots.find(|spot| is_folder_in(shape, names, spot.id, f, name))?;
    Some(first.id)
}

/// The first of the files that is in the folder and has the name.
pub(crate) fn first_file(
    mut spots: Spots<'_>,
    shape: &Shape,
    names: &Names,
    f: u32,
    name: &[u8],
) -> Option<u32>
    ensures { result ≡ option_map (λ (q : TheSpot). q.id)
        (find (λ q. spelling.is_file_in f name.now (file_entry (tree_store shape.now.tree names.now) q.id)) spots.entry) }
{
    let first = spots.find(|spot| is_file_in(shape, names, spot.id, f, name))?;
    Some(first.id)
}

/// Whether another of the folders than g is in the folder f and has the name.
pub(crate) fn has_another(
    mut spots: Spots<'_>,
    shape: &Shape,
    names: &Names,
    g: u32,
    f: u32,
    name: &[u8],
) -> bool
    ensures { result ≡ list_any (λ (q : TheSpot). not (q.id == g)
        && spelling.is_folder_in f name.now (folder_entry (tree_store shape.now.tree names.now) q.id)) spots.entry }
{
    spots.any(|spot| spot.id != g && is_folder_in(shape, names, spot.id, f, name))
}

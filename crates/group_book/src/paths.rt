//! The path of what a grant is on.
ghost use Rattle.std.specs.Prelude.{◌≡◌, ◌∷◌, ◌++◌, IfOk, OnOk, map};
ghost use Rattle.std.specs.List.{flat_map};
ghost use Rattle.cry_base.specs.Store.{FolderEntry, backwards, file_node, folder_names, folder_node, path_of, way_to_root};
ghost use Rattle.cry_base.specs.declared.ids.FolderId.{FolderId as TheFolder};
ghost use Rattle.folder_nodes.specs.Spelling.{joined};
ghost use Rattle.folder_nodes.specs.Titles.{name_in, title_at, title_of, tree_store};
ghost use Rattle.group_book.specs.Replacing.{granted_node};

use cry_base::{FileId, FolderId, Mem, Node, Text};
use folder_nodes::{Names, Shape};
use grant_book::file_of;
use std::alloc::Global;

fn put_first(way: &mut Vec<FolderId>, folder: FolderId) -> Mem<()>
    ensures { OnOk result (way.new.items ≡ folder ∷ way.old.items) }
{
    way.insert(0, folder)?;
    Ok(())
}

/// The folders from the root down to the folder, itself the last.
fn way_to(alloc: Global, shape: &Shape, f: FolderId) -> Mem<Vec<FolderId>>
    ensures { IfOk result (λ way. map (λ (x : TheFolder). x.0) way.items
        ≡ backwards (map (λ (e : FolderEntry). e.id) (way_to_root shape.now.tree f.0))) }
{
    shape.is_tree();
    let mut way = Vec::new(alloc);
    let mut here = f;
    for _climbed in 0..65u32 {
        if !shape.has_folder(here) {
            return Ok(way);
        }
        put_first(&mut way, here)?;
        let Some(parent) = shape.parent(here) else {
            return Ok(way);
        };
        here = parent;
    }
    Ok(way)
}

/// The name of a folder or file, and none where it isn't named.
fn name_of(names: &Names, node: Node) -> &[u8]
    ensures { result.now ≡ name_in (title_of names.now node) }
{
    match names.name(node) {
        Some(name) => name,
        None => b"".as_slice(),
    }
}

/// Adds the folders' names, with a slash before each.
fn add_each(text: &mut Text, names: &Names, folders: &[FolderId]) -> Mem<()>
    ensures { OnOk result (text.new.items ≡ text.old.items
        ++ flat_map (λ (x : TheFolder). 47 ∷ name_in (title_at names.now.folders x.0)) folders.now) }
{
    for folder in folders {
        text.append(b"/")?;
        text.append(name_of(names, Node::Folder(*folder)))?;
    }
    Ok(())
}

/// Adds the names from the root down to the folder, with a slash before each; the root has none.
fn add_names(alloc: Global, text: &mut Text, shape: &Shape, names: &Names, f: FolderId) -> Mem<()>
    ensures { OnOk result (text.new.items ≡ text.old.items ++ joined (folder_names (tree_store shape.now.tree names.now) f.0)) }
{
    let way = way_to(alloc, shape, f)?;
    match way.as_slice().split_first() {
        Some((_root, below)) => add_each(text, names, below),
        None => Ok(()),
    }
}

/// The path of a folder.
fn folder_path(alloc: Global, shape: &Shape, names: &Names, f: FolderId) -> Mem<Text>
    ensures { IfOk result (λ path. path.items ≡ path_of (tree_store shape.now.tree names.now) (folder_node f.0)) }
{
    let mut path = Text::new(alloc);
    add_names(alloc, &mut path, shape, names, f)?;
    if !path.as_slice().is_empty() {
        return Ok(path);
    }
    path.append(b"/")?;
    Ok(path)
}

/// The path of a file, and the root's where the file doesn't stand.
fn file_path(alloc: Global, shape: &Shape, names: &Names, x: FileId) -> Mem<Text>
    ensures { IfOk result (λ path. path.items ≡ path_of (tree_store shape.now.tree names.now) (file_node x.0)) }
{
    let mut path = Text::new(alloc);
    if let Some(folder) = shape.folder_of(x) {
        add_names(alloc, &mut path, shape, names, folder)?;
        path.append(b"/")?;
        path.append(name_of(names, Node::File(x)))?;
        return Ok(path);
    }
    path.append(b"/")?;
    Ok(path)
}

/// The path of what the grant with this number is on, a folder or a file.
pub(crate) fn granted_path(
    alloc: Global,
    shape: &Shape,
    names: &Names,
    number: FolderId,
) -> Mem<Text>
    ensures { IfOk result (λ path. path.items ≡ path_of (tree_store shape.now.tree names.now) (granted_node number.0)) }
{
    match file_of(number) {
        Some(file) => file_path(alloc, shape, names, file),
        None => folder_path(alloc, shape, names, number),
    }
}

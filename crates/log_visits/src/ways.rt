//! The way from the root down to a folder, and the path that it spells.
ghost use Rattle.std.specs.Prelude.{◌≡◌, ◌∷◌, ◌++◌, [], IfOk, OnOk, map};
ghost use Rattle.std.specs.List.{flat_map};
ghost use Rattle.cry_base.specs.Naming.{spell_path};
ghost use Rattle.cry_base.specs.Store.{FolderEntry, backwards, folder_names, way_to_root};
ghost use Rattle.cry_base.specs.declared.ids.FolderId.{FolderId as TheFolder};
ghost use Rattle.folder_nodes.specs.Spelling.{joined};
ghost use Rattle.folder_nodes.specs.Titles.{name_in, title_at, tree_store};

use cry_base::{FolderId, Mem, Text};
use folder_nodes::{OpenedNames, Shape};
use std::alloc::Global;

fn put_first(way: &mut Vec<FolderId>, folder: FolderId) -> Mem<()>
    ensures { OnOk result (way.new.items ≡ folder ∷ way.old.items) }
{
    way.insert(0, folder)?;
    Ok(())
}

/// The folders from the root down to the folder, itself the last.
pub(crate) fn way_to(alloc: Global, shape: &Shape, f: FolderId) -> Mem<Vec<FolderId>>
    ensures { IfOk result (λ way. map (λ (x : TheFolder). x.0) way.items
        ≡ backwards (map (λ (e : FolderEntry). e.id) (way_to_root shape.now.tree f.0))) }
{
    shape.is_tree();
    let mut way = Vec::new(alloc);
    let mut here = f;
    for _climbed in 0..65u32 {
        if !shape.has_folder(here) {
            return Ok(way);
        }
        put_first(&mut way, here)?;
        let Some(parent) = shape.parent(here) else {
            return Ok(way);
        };
        here = parent;
    }
    Ok(way)
}

/// The name of a folder, and none where it isn't named.
fn name_of(names: &OpenedNames, folder: FolderId) -> &[u8]
    ensures { result.now ≡ name_in (title_at names.now.folders folder.0) }
{
    match names.folder_name(folder) {
        Some(name) => name,
        None => b"".as_slice(),
    }
}

/// Adds the folders' names, with a slash before each.
fn add_each(text: &mut Text, names: &OpenedNames, folders: &[FolderId]) -> Mem<()>
    ensures { OnOk result (text.new.items ≡ text.old.items
        ++ flat_map (λ (x : TheFolder). 47 ∷ name_in (title_at names.now.folders x.0)) folders.now) }
{
    for folder in folders {
        text.append(b"/")?;
        text.append(name_of(names, *folder))?;
    }
    Ok(())
}

/// Adds the names from the root down to the folder, with a slash before each; the root has none.
fn add_names(
    alloc: Global,
    text: &mut Text,
    shape: &Shape,
    names: &OpenedNames,
    f: FolderId,
) -> Mem<()>
    ensures { OnOk result (text.new.items ≡ text.old.items ++ joined (folder_names (tree_store shape.now.tree names.now) f.0)) }
{
    let way = way_to(alloc, shape, f)?;
    match way.as_slice().split_first() {
        Some((_root, below)) => add_each(text, names, below),
        None => Ok(()),
    }
}

/// The path of a folder.
pub fn folder_path(alloc: Global, shape: &Shape, names: &OpenedNames, f: FolderId) -> Mem<Text>
    ensures { IfOk result (λ path. path.items ≡ spell_path (folder_names (tree_store shape.now.tree names.now) f.0)) }
{
    let mut path = Text::new(alloc);
    add_names(alloc, &mut path, shape, names, f)?;
    if !path.as_slice().is_empty() {
        return Ok(path);
    }
    path.append(b"/")?;
    Ok(path)
}

/// The path of a file in a folder.
pub fn file_path(
    alloc: Global,
    shape: &Shape,
    names: &OpenedNames,
    folder: FolderId,
    name: &[u8],
) -> Mem<Text>
    ensures { IfOk result (λ path. path.items ≡ spell_path (folder_names (tree_store shape.now.tree names.now) folder.0 ++ name.now ∷ [])) }
{
    let mut path = Text::new(alloc);
    add_names(alloc, &mut path, shape, names, folder)?;
    path.append(b"/")?;
    path.append(name)?;
    Ok(path)
}

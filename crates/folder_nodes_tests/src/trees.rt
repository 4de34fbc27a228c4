//! A tree with its names, from tables.
use cry_base::{FileId, FolderId, List, Mem, Node, Text};
use folder_nodes::{FileRow, FolderRow, Names, OpenedNames, Shape, name_ok};
use std::alloc::Global;

/// The number of a folder or file, that of the folder that it is in, and its name.
pub(crate) type Given = (u32, u32, &'static [u8]);

#[derive(Drop)]
pub(crate) struct Tree {
    pub(crate) shape: Shape,
    pub(crate) names: Names,
}

fn text(alloc: Global, bytes: &[u8]) -> Mem<Text> {
    let mut text = List::new(alloc);
    text.append(bytes)?;
    Ok(text)
}

/// Opens a node's name, where it is one, and a byte.
pub(crate) fn open_name(
    alloc: Global,
    names: &mut OpenedNames,
    node: Node,
    name: &[u8],
) -> Mem<()> {
    let name = text(alloc, name)?;
    let bytes = text(alloc, &[8])?;
    names.reserve()?;
    if name_ok(name.as_slice()) {
        names.set(node, name, bytes);
    }
    Ok(())
}

/// Gives a node a name, where it is one, and two bytes.
pub(crate) fn name_node(alloc: Global, names: &mut Names, node: Node, name: &[u8]) -> Mem<()> {
    let name = text(alloc, name)?;
    let bytes = text(alloc, &[7, 9])?;
    names.reserve()?;
    if name_ok(name.as_slice()) {
        names.set(node, name, bytes);
    }
    Ok(())
}

fn folder_rows(alloc: Global, names: &mut OpenedNames, folders: &[Given]) -> Mem<List<FolderRow>> {
    let mut rows = List::new(alloc);
    for (id, parent, name) in folders {
        let id = FolderId(*id);
        rows.push(FolderRow {
            id,
            parent: *parent,
        })?;
        open_name(alloc, names, Node::Folder(id), name)?;
    }
    Ok(rows)
}

fn file_rows(alloc: Global, names: &mut OpenedNames, files: &[Given]) -> Mem<List<FileRow>> {
    let mut rows = List::new(alloc);
    for (id, folder, name) in files {
        let id = FileId(*id);
        rows.push(FileRow {
            id,
            folder: FolderId(*folder),
        })?;
        open_name(alloc, names, Node::File(id), name)?;
    }
    Ok(rows)
}

/// The tree with these folders and files, where nine of each were ever made.
pub(crate) fn tree_of(alloc: Global, folders: &[Given], files: &[Given]) -> Mem<Option<Tree>> {
    let mut opened = OpenedNames::new(alloc);
    let folders = folder_rows(alloc, &mut opened, folders)?;
    let files = file_rows(alloc, &mut opened, files)?;
    let names = Names::of(alloc, opened)?;
    let Some(shape) = Shape::restore(alloc, 9, 9, folders, files)? else {
        return Ok(None);
    };
    Ok(Some(Tree { shape, names }))
}

//! A tree that is made, changed and copied, and one from its rows.
use cry_base::{FileId, FolderId, List, Mem, Node};
use folder_nodes::{FileRow, FolderRow, Shape};
use std::alloc::Global;

const ROOT: FolderId = FolderId(1);

const FIRST: FileId = FileId(1);

/// Makes a folder, where something may be put into the other one.
fn add_folder(shape: &mut Shape, parent: FolderId) -> Mem<Option<FolderId>> {
    shape.reserve()?;
    if shape.folders_made() > 99 || !shape.has_folder(parent) {
        return Ok(None);
    }
    if shape.depth(parent) >= 64 {
        return Ok(None);
    }
    Ok(Some(shape.add_folder(Some(parent))))
}

fn add_file(shape: &mut Shape, folder: FolderId) -> Mem<Option<FileId>> {
    shape.reserve()?;
    if shape.files_made() > 99 || !shape.has_folder(folder) {
        return Ok(None);
    }
    if shape.depth(folder) >= 64 {
        return Ok(None);
    }
    Ok(Some(shape.add_file(folder)))
}

/// The root, the folder 2 in it, and in that one the folder 3 and the file 1.
fn made(alloc: Global) -> Mem<Shape> {
    let mut shape = Shape::new(alloc);
    shape.reserve()?;
    if shape.folders_made() != 0 {
        return Ok(shape);
    }
    shape.add_folder(None);
    add_folder(&mut shape, ROOT)?;
    add_folder(&mut shape, FolderId(2))?;
    add_file(&mut shape, FolderId(2))?;
    Ok(shape)
}

fn move_file(shape: &mut Shape, file: FileId, into: FolderId) -> Mem<bool> {
    shape.reserve()?;
    if shape.folder_of(file).is_none() || !shape.has_folder(into) {
        return Ok(false);
    }
    if shape.depth(into) >= 64 {
        return Ok(false);
    }
    shape.relocate(Node::File(file), into);
    Ok(true)
}

fn remove_folder(shape: &mut Shape, folder: FolderId) -> bool {
    if folder == ROOT || !shape.has_folder(folder) {
        return false;
    }
    if !shape.is_empty_folder(folder) {
        return false;
    }
    shape.remove(Node::Folder(folder));
    true
}

fn height(shape: &Shape, folder: FolderId) -> Option<u32> {
    if !shape.has_folder(folder) {
        return None;
    }
    Some(shape.height(folder))
}

/// The heights of the root and of the folders 2 and 3.
fn heights(shape: &Shape) -> [Option<u32>; 3] {
    [
        height(shape, ROOT),
        height(shape, FolderId(2)),
        height(shape, FolderId(3)),
    ]
}

#[test]
fn a_height_goes_down_to_the_deepest_file(rt: HostRuntime) -> Mem<()> {
    let mut shape = made(rt.alloc())?;
    assert!(rt; heights(&shape) == [Some(2), Some(1), Some(0)]);
    add_file(&mut shape, FolderId(3))?;
    assert!(rt; heights(&shape) == [Some(3), Some(2), Some(1)]);
    Ok(())
}

#[test]
fn a_folder_is_removed_once_nothing_is_in_it(rt: HostRuntime) -> Mem<()> {
    let mut shape = made(rt.alloc())?;
    assert!(rt; height(&shape, ROOT) == Some(2));
    assert!(rt; shape.parent(FolderId(3)) == Some(FolderId(2)));
    assert!(rt; shape.is_under(FolderId(3), ROOT));
    assert!(rt; remove_folder(&mut shape, FolderId(3)));
    assert!(rt; !remove_folder(&mut shape, FolderId(2)));
    assert!(rt; move_file(&mut shape, FIRST, ROOT)?);
    assert!(rt; remove_folder(&mut shape, FolderId(2)));
    let copy = shape.copy()?;
    assert!(rt; copy.folder_of(FIRST) == Some(ROOT));
    assert!(rt; copy.folders_made() == 3);
    Ok(())
}

/// The shape of these rows and one file in the folder 2, where four folders and three files were ever made.
fn restored(alloc: Global, folders: &[FolderRow]) -> Mem<Option<Shape>> {
    let mut rows = List::new(alloc);
    for row in folders {
        rows.push(*row)?;
    }
    let mut files = List::new(alloc);
    files.push(FILE)?;
    Shape::restore(alloc, 4, 3, rows, files)
}

const FILE: FileRow = FileRow {
    id: FileId(3),
    folder: FolderId(2),
};

fn row(id: u32, parent: u32) -> FolderRow {
    FolderRow {
        id: FolderId(id),
        parent,
    }
}

/// Whether the shape has these folders and that file.
fn has_rows(shape: &Option<Shape>, folders: &[FolderRow]) -> bool {
    match shape {
        Some(shape) => shape.folders().eq(folders) && shape.files().eq(&[FILE]),
        None => false,
    }
}

/// How many folders and files the shape has.
fn counts(shape: &Option<Shape>) -> (usize, usize) {
    match shape {
        Some(shape) => (shape.folder_count(), shape.file_count()),
        None => (0, 0),
    }
}

#[test]
fn rows_of_a_tree_are_its_shape(rt: HostRuntime) -> Mem<()> {
    let rows = [row(1, 0), row(2, 4), row(4, 1)];
    let shape = restored(rt.alloc(), &rows)?;
    assert!(rt; has_rows(&shape, &rows));
    assert!(rt; counts(&shape) == (3, 1));
    assert!(rt; restored(rt.alloc(), &[row(1, 0), row(2, 4), row(4, 2)])?.is_none());
    Ok(())
}

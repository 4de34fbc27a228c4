//! Small stores, from tables.
ghost use Rattle.std.specs.Prelude;
ghost use Rattle.role_graph.specs.PublicStore.{FoldersBelow};

use cry_base::{Edge, FileId, FolderId, HolderId, List};
use folder_nodes::{FileRow, FolderRow, Shape};
use grant_book::Grants;
use role_graph::edges;
use role_graph::key_laws::few_folders_are_below;
use std::alloc::Global;
use std::test::Fail;

#[derive(Drop)]
pub(crate) struct Store {
    pub(crate) shape: Shape,
    pub(crate) grants: Grants,
    ghost below: { FoldersBelow shape.tree },
}

impl Store {
    /// The store with a folder in each of the first numbers, after the root, a file in each of the next, and these grants to holders.
    pub(crate) fn new(
        alloc: Global,
        parents: &[u32],
        files: &[u32],
        given: &[(u32, u32)],
    ) -> Result<Store, Fail> {
        let folders = folder_rows(alloc, parents)?;
        let files = file_rows(alloc, files)?;
        let shape = match Shape::restore(alloc, 99, 99, folders, files)? {
            Some(shape) => shape,
            None => Shape::new(alloc),
        };
        few_folders_are_below(&shape);
        let grants = book(alloc, given)?;
        Ok(Store { shape, grants })
    }

    pub(crate) fn edges(&self, alloc: Global) -> Result<List<Edge>, Fail> {
        Ok(edges(alloc, &self.shape, &self.grants)?)
    }
}

fn folder_rows(alloc: Global, parents: &[u32]) -> Result<List<FolderRow>, Fail> {
    let mut rows = List::new(alloc);
    let (mut id, parent) = (FolderId(1), 0);
    rows.push(FolderRow { id, parent })?;
    for parent in parents {
        id = FolderId(id.0.wrapping_add(1));
        let parent = *parent;
        rows.push(FolderRow { id, parent })?;
    }
    Ok(rows)
}

fn file_rows(alloc: Global, files: &[u32]) -> Result<List<FileRow>, Fail> {
    let mut rows = List::new(alloc);
    let mut id = FileId(0);
    for folder in files {
        id = FileId(id.0.wrapping_add(1));
        let folder = FolderId(*folder);
        rows.push(FileRow { id, folder })?;
    }
    Ok(rows)
}

/// Two holders, and these grants of theirs.
fn book(alloc: Global, given: &[(u32, u32)]) -> Result<Grants, Fail> {
    let mut grants = Grants::new(alloc);
    for check in [[7; 32], [8; 32]] {
        add_holder(&mut grants, check)?;
    }
    for (holder, folder) in given {
        give(&mut grants, HolderId(*holder), FolderId(*folder))?;
    }
    Ok(grants)
}

fn add_holder(grants: &mut Grants, check: [u8; 32]) -> Result<(), Fail> {
    grants.reserve()?;
    if grants.holders() < 9 {
        grants.add_holder(check);
    }
    Ok(())
}

fn give(grants: &mut Grants, h: HolderId, f: FolderId) -> Result<(), Fail> {
    grants.reserve()?;
    if 1 <= h.0 && h.0 <= grants.holders() && !grants.has(h, f) {
        grants.grant(h, f);
    }
    Ok(())
}

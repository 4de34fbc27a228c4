//! What is in a folder, listed without a look at anything else.
ghost use Rattle.std.specs.Prelude.{◌≡◌, filter, map, IfOk};
ghost use Rattle.cry_base.specs.Store.{folder_entry, file_entry};
ghost use Rattle.cry_base.specs.declared.ids.FileId.{FileId as AnyFile};
ghost use Rattle.cry_base.specs.declared.ids.FolderId.{FolderId as AnyFolder};
ghost use Rattle.folder_nodes.specs.Inside.{AreListed, is_child_of, is_file_of};
ghost use Rattle.folder_nodes.specs.declared.spots.Spot.{Spot as TheSpot};

use crate::Shape;
use crate::spots::Spots;
use cry_base::{FileId, FolderId, List, Mem};
use std::alloc::Global;

impl Shape {
    /// The folders that are in the folder, by number.
    pub fn folders_in(&self, alloc: Global, f: FolderId) -> Mem<List<FolderId>>
        ensures { IfOk result (λ l. AreListed (λ g. is_child_of f.0 (folder_entry self.now.tree g))
            (map (λ (g : AnyFolder). g.0) l.items)) }
    {
        self.is_tree();
        folders_among(alloc, self.folders_inside(f.0), self, f)
    }

    /// The files that are in the folder, by number.
    pub fn files_in(&self, alloc: Global, f: FolderId) -> Mem<List<FileId>>
        ensures { IfOk result (λ l. AreListed (λ x. is_file_of f.0 (file_entry self.now.tree x)) (map (λ (x : AnyFile). x.0) l.items)) }
    {
        self.is_tree();
        files_among(alloc, self.files_inside(f.0), self, f)
    }

    /// Whether the folder g stands in the folder f.
    pub(crate) fn is_child(&self, g: u32, f: FolderId) -> bool
        ensures { result ≡ is_child_of f.0 (folder_entry self.now.tree g) }
    {
        match self.folder_row(g) {
            Some(row) => row.parent == f.0,
            None => false,
        }
    }

    /// Whether the file stands in the folder.
    fn is_file_in(&self, x: u32, f: FolderId) -> bool
        ensures { result ≡ is_file_of f.0 (file_entry self.now.tree x) }
    {
        match self.file_row(x) {
            Some(row) => row.folder.0 == f.0,
            None => false,
        }
    }
}

/// Those of the folders that are in the folder f.
fn folders_among(alloc: Global, spots: Spots<'_>, shape: &Shape, f: FolderId) -> Mem<List<FolderId>>
    ensures { IfOk result (λ l. map (λ (g : AnyFolder). g.0) l.items
        ≡ map (λ (q : TheSpot). q.id) (filter (λ q. is_child_of f.0 (folder_entry shape.now.tree q.id)) spots.entry)) }
{
    let mut found = List::new(alloc);
    for spot in spots {
        if shape.is_child(spot.id, f) {
            found.push(FolderId(spot.id))?;
        }
    }
    Ok(found)
}

/// Those of the files that are in the folder.
fn files_among(alloc: Global, spots: Spots<'_>, shape: &Shape, f: FolderId) -> Mem<List<FileId>>
    ensures { IfOk result (λ l. map (λ (x : AnyFile). x.0) l.items
        ≡ map (λ (q : TheSpot). q.id) (filter (λ q. is_file_of f.0 (file_entry shape.now.tree q.id)) spots.entry)) }
{
    let mut found = List::new(alloc);
    for spot in spots {
        if shape.is_file_in(spot.id, f) {
            found.push(FileId(spot.id))?;
        }
    }
    Ok(found)
}

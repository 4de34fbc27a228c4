//! The tree without its names, and what is looked up in it.
ghost use Rattle.std.specs.Prelude.{◌≡◌, ◌≤◌, ◌==◌, not, map, is_some, IsSome, IsOk, IfOk, OnOk};
ghost use Rattle.std.specs.List.{list_any};
ghost use Rattle.std.specs.Option.{option_map};
ghost use Rattle.cry_base.specs.Refusing.{has_child};
ghost use Rattle.cry_base.specs.Sets.{In};
ghost use Rattle.cry_base.specs.Store.{FolderEntry, FileEntry, no_store, folder_entry, file_entry};
ghost use Rattle.folder_nodes.specs.Bare.{folder_of_row, file_of_row};
ghost use Rattle.folder_nodes.specs.Looking.{parent_id, folder_id_of};
ghost use Rattle.folder_nodes.specs.Trees.{IsTree};
ghost use Rattle.folder_nodes.specs.declared.spots.Spot.{Spot as TheSpot};
ghost use Rattle.sorted_table.specs.Rows.{IsRising};

use crate::grouped::Grouped;
use crate::rows::{FileKey, FolderKey};
use crate::spots::Spots;
use crate::{FileRow, FolderRow};
use cry_base::{FileId, FolderId, Mem};
use std::alloc::Global;
use std::marker::Model;

/// Folders and files by their numbers, and how many of each were ever made. Contracts see the tree as a plain store
/// without names. `spare` is how many changes have their memory.
#[derive(Drop)]
pub struct Shape {
    pub(crate) folders: Grouped<FolderRow>,
    pub(crate) files: Grouped<FileRow>,
    pub(crate) folders_made: u32,
    pub(crate) files_made: u32,
}

impl Model for Shape {
    ghost use Rattle.std.specs.Prelude.{min};
    ghost use Rattle.folder_nodes.specs.Bare.{Shaped, bare_store};
    ghost use Rattle.folder_nodes.specs.Trees.{IsTree};

    ghost Value = { Shaped };

    ghost view = { λ a. record {
      tree = bare_store a.folders.rows a.files.rows a.folders_made a.files_made;
      spare = min a.folders.spare a.files.spare;
    } };

    ghost invariant = { λ a. IsTree (bare_store a.folders.rows a.files.rows a.folders_made a.files_made) };
}

impl Shape {
    /// A shape without folders. It takes no memory.
    #[tactic(auto, using(crate::proofs::Rowed::empty_tree), unfolding(cry_base::specs::Store::no_store))]
    pub fn new(alloc: Global) -> Self
        ensures { result.tree ≡ no_store }
    {
        Shape {
            folders: Grouped::new(alloc),
            files: Grouped::new(alloc),
            folders_made: 0,
            files_made: 0,
        }
    }

    /// A law: what a shape holds is a tree.
    pub fn is_tree(&self)
        ensures { IsTree self.now.tree }
    {
        let _ = &self.folders;
    }

    /// How many folders were ever made.
    pub fn folders_made(&self) -> u32
        ensures { result ≡ self.now.tree.folders_made }
    {
        self.folders_made
    }

    /// How many files were ever made.
    pub fn files_made(&self) -> u32
        ensures { result ≡ self.now.tree.files_made }
    {
        self.files_made
    }

    /// The row of the folder with the number.
    pub(crate) fn folder_row(&self, f: u32) -> Option<FolderRow>
        ensures { folder_entry self.now.tree f ≡ option_map folder_of_row result }
    {
        self.folders.find(&FolderKey(f)).copied()
    }

    /// The row of the file with the number.
    pub(crate) fn file_row(&self, x: u32) -> Option<FileRow>
        ensures { file_entry self.now.tree x ≡ option_map file_of_row result }
    {
        self.files.find(&FileKey(x)).copied()
    }

    /// Whether the folder stands.
    pub fn has_folder(&self, f: FolderId) -> bool
        ensures { result ≡ is_some (folder_entry self.now.tree f.0) }
    {
        self.folder_row(f.0).is_some()
    }

    /// The folder that a folder is in: `None` for the root, and where the folder doesn't stand.
    pub fn parent(&self, f: FolderId) -> Option<FolderId>
        ensures { result ≡ parent_id (folder_entry self.now.tree f.0) }
    {
        let row = self.folder_row(f.0)?;
        (row.parent != 0).then_some(FolderId(row.parent))
    }

    /// The folder that a file is in, where the file stands.
    pub fn folder_of(&self, x: FileId) -> Option<FolderId>
        ensures { result ≡ folder_id_of (file_entry self.now.tree x.0) }
    {
        self.file_row(x.0).map(|row| row.folder)
    }

    /// The numbers of all folders in the folder, in ascending order.
    pub(crate) fn folders_inside(&self, f: u32) -> Spots<'_>
        ensures rising { IsRising (λ (q : TheSpot). q.id) result }
        ensures all { (e : FolderEntry) → In e self.now.tree.folders → e.parent ≡ f → In e.id (map (λ (q : TheSpot). q.id) result) }
    {
        self.folders.in_group(f)
    }

    /// The numbers of all files in the folder, in ascending order.
    pub(crate) fn files_inside(&self, f: u32) -> Spots<'_>
        ensures rising { IsRising (λ (q : TheSpot). q.id) result }
        ensures all { (e : FileEntry) → In e self.now.tree.files → e.folder ≡ f → In e.id (map (λ (q : TheSpot). q.id) result) }
    {
        self.files.in_group(f)
    }

    /// Whether a folder is in the folder.
    pub(crate) fn has_folder_inside(&self, f: u32) -> bool
        ensures { result ≡ list_any (λ e. e.parent == f) self.now.tree.folders }
    {
        self.folders.has_group(f)
    }

    /// Whether a file is in the folder.
    pub(crate) fn has_file_inside(&self, f: u32) -> bool
        ensures { result ≡ list_any (λ e. e.folder == f) self.now.tree.files }
    {
        self.files.has_group(f)
    }

    /// Whether the folder has no child.
    #[tactic(auto, unfolding(cry_base::specs::Refusing::has_child))]
    pub fn is_empty_folder(&self, f: FolderId) -> bool
        requires { IsSome (folder_entry self.now.tree f.0) }
        ensures { result ≡ not (has_child self.now.tree f.0) }
    {
        !self.has_folder_inside(f.0) && !self.has_file_inside(f.0)
    }

    /// An equal shape, with memory of its own.
    pub fn copy(&self) -> Mem<Shape>
        ensures { IfOk result (λ copy. copy.tree ≡ self.now.tree) }
    {
        let folders = self.folders.copy()?;
        let files = self.files.copy()?;
        Ok(Shape {
            folders,
            files,
            folders_made: self.folders_made,
            files_made: self.files_made,
        })
    }

    /// Takes the memory of one change.
    pub fn reserve(&mut self) -> Mem<()>
        ensures tree { self.new.tree ≡ self.old.tree }
        ensures room { OnOk result (1 ≤ self.new.spare) }
        ensures kept { self.old.spare ≤ self.new.spare }
        ensures has_room { 1 ≤ self.old.spare → IsOk result }
    {
        self.folders.reserve()?;
        self.files.reserve()
    }
}

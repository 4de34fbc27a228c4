//! Changes of a shape, each of which has its memory from `reserve`.
ghost use Rattle.std.specs.Prelude.{◌≡◌, ◌≢◌, ◌+◌, ◌<◌, ◌≤◌, [], false, IsSome, Some};
ghost use Rattle.cry_base.specs.Refusing.{has_child};
ghost use Rattle.cry_base.specs.Stepping.{with_new_folder, with_new_file, with_folder, with_file, without_folder, without_file};
ghost use Rattle.cry_base.specs.Stepping.{without_node, moved};
ghost use Rattle.cry_base.specs.Store.{file_entry};
ghost use Rattle.folder_nodes.specs.Changing.{HasPlace, HasPlaceFor, number_of, CanRemove, CanShift, CanMove};

use crate::rows::{FileKey, FolderKey};
use crate::{FileRow, FolderRow, Shape};
use cry_base::{FileId, FolderId, Node};

impl Shape {
    /// Makes the next folder in a folder, or the root in none.
    pub fn add_folder(&mut self, parent: Option<FolderId>) -> FolderId
        requires room { 1 ≤ self.old.spare }
        requires numbers { self.old.tree.folders_made + 1 < 4294967296 }
        requires place { HasPlaceFor self.old.tree parent }
        ensures tree { self.new.tree ≡ with_new_folder self.old.tree (number_of parent) [] }
        ensures id { result.0 ≡ self.old.tree.folders_made + 1 }
        ensures spare { self.old.spare ≤ self.new.spare + 1 }
    {
        let id = FolderId(self.folders_made + 1);
        self.folders.insert(FolderRow {
            id,
            parent: folder_number(parent),
        });
        self.folders_made += 1;
        id
    }

    /// Makes the next file in a folder.
    pub fn add_file(&mut self, folder: FolderId) -> FileId
        requires room { 1 ≤ self.old.spare }
        requires numbers { self.old.tree.files_made + 1 < 4294967296 }
        requires place { HasPlace self.old.tree folder.0 }
        ensures tree { self.new.tree ≡ with_new_file self.old.tree folder.0 [] [] }
        ensures id { result.0 ≡ self.old.tree.files_made + 1 }
        ensures spare { self.old.spare ≤ self.new.spare + 1 }
    {
        let id = FileId(self.files_made + 1);
        self.files.insert(FileRow { id, folder });
        self.files_made += 1;
        id
    }

    /// Removes a file, or a folder that has no child.
    pub fn remove(&mut self, node: Node)
        requires { CanRemove self.old.tree node }
        ensures tree { self.new.tree ≡ without_node self.old.tree (Some node) }
        ensures spare { self.old.spare ≤ self.new.spare }
    {
        match node {
            Node::Folder(folder) => self.remove_folder(folder.0),
            Node::File(file) => self.remove_file(file.0),
        }
    }

    fn remove_folder(&mut self, f: u32)
        requires other { f ≢ 1 }
        requires empty { has_child self.old.tree f ≡ false }
        ensures tree { self.new.tree ≡ without_folder self.old.tree f }
        ensures spare { self.old.spare ≤ self.new.spare }
    {
        self.folders.remove(&FolderKey(f));
    }

    fn remove_file(&mut self, x: u32)
        ensures tree { self.new.tree ≡ without_file self.old.tree x }
        ensures spare { self.old.spare ≤ self.new.spare }
    {
        self.files.remove(&FileKey(x));
    }

    /// Puts a folder, with all below it, or a file into another folder.
    pub fn relocate(&mut self, node: Node, into: FolderId)
        requires room { 1 ≤ self.old.spare }
        requires fits { CanMove self.old.tree node into.0 }
        ensures tree { self.new.tree ≡ moved self.old.tree (Some node) into.0 }
        ensures spare { self.old.spare ≤ self.new.spare + 1 }
    {
        match node {
            Node::Folder(folder) => self.shift_folder(folder, into),
            Node::File(file) => self.shift_file(file, into),
        }
    }

    fn shift_folder(&mut self, folder: FolderId, into: FolderId)
        requires room { 1 ≤ self.old.spare }
        requires fits { CanShift self.old.tree folder.0 into.0 }
        ensures tree { self.new.tree ≡ with_folder self.old.tree folder.0 (λ e. record e { parent = into.0 }) }
        ensures spare { self.old.spare ≤ self.new.spare + 1 }
    {
        self.folders.replace(FolderRow {
            id: folder,
            parent: into.0,
        });
    }

    fn shift_file(&mut self, file: FileId, into: FolderId)
        requires room { 1 ≤ self.old.spare }
        requires stands { IsSome (file_entry self.old.tree file.0) }
        requires place { HasPlace self.old.tree into.0 }
        ensures tree { self.new.tree ≡ with_file self.old.tree file.0 (λ e. record e { folder = into.0 }) }
        ensures spare { self.old.spare ≤ self.new.spare + 1 }
    {
        self.files.replace(FileRow {
            id: file,
            folder: into,
        });
    }
}

/// The folder's number, and 0 where there is none.
fn folder_number(folder: Option<FolderId>) -> u32
    ensures { result ≡ number_of folder }
{
    match folder {
        Some(folder) => folder.0,
        None => 0,
    }
}

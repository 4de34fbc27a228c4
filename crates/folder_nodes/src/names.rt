//! The names of folders and files, and the bytes of files.
ghost use Rattle.std.specs.Prelude.{◌≡◌, ◌+◌, ◌≤◌, [], cond, map, Some, None, IsOk, IfOk, OnOk, option_map};
ghost use Rattle.std.specs.Option.{option_copied};
ghost use Rattle.cry_base.specs.Sets.{In};
ghost use Rattle.cry_base.specs.declared.roles.Node.{Node as TheNode};
ghost use Rattle.folder_nodes.specs.Titles.{Title, MayBeNamed, title_of, title_at, is_node, new_title};
ghost use Rattle.folder_nodes.specs.declared.spots.Spot.{Spot as TheSpot};
ghost use Rattle.sorted_table.specs.Rows.{IsRising};

use crate::book::Book;
use crate::opened_names::OpenedNames;
use crate::spots::Spots;
use cry_base::{FileId, Mem, Node, Text};
use std::alloc::Global;
use std::marker::Model;

/// A name by its folder or file, and bytes by the file. `spare` is how many changes have their memory.
#[derive(Drop)]
pub struct Names {
    folders: Book,
    files: Book,
}

impl Model for Names {
    ghost use Rattle.std.specs.Prelude.{min};
    ghost use Rattle.folder_nodes.specs.Titles.{Titles};

    ghost Value = { Titles };

    ghost view = { λ a. record {
      folders = a.folders.titles;
      files = a.files.titles;
      spare = min a.folders.spare a.files.spare;
    } };
}

impl Names {
    /// No names. It takes no memory.
    pub fn new(alloc: Global) -> Self
        ensures folders { result.folders ≡ [] }
        ensures files { result.files ≡ [] }
    {
        Names {
            folders: Book::new(alloc),
            files: Book::new(alloc),
        }
    }

    /// The names that were opened, to be looked up. Their index is put in order once.
    pub fn of(alloc: Global, opened: OpenedNames) -> Mem<Self>
        ensures folders { IfOk result (λ names. names.folders ≡ opened.folders) }
        ensures files { IfOk result (λ names. names.files ≡ opened.files) }
    {
        let OpenedNames { folders, files } = opened;
        Ok(Names {
            folders: Book::of_rows(alloc, folders)?,
            files: Book::of_rows(alloc, files)?,
        })
    }

    /// Takes the memory of one change.
    pub fn reserve(&mut self) -> Mem<()>
        ensures folders { self.new.folders ≡ self.old.folders }
        ensures files { self.new.files ≡ self.old.files }
        ensures room { OnOk result (1 ≤ self.new.spare) }
        ensures kept { self.old.spare ≤ self.new.spare }
        ensures has_room { 1 ≤ self.old.spare → IsOk result }
    {
        self.folders.reserve()?;
        self.files.reserve()
    }

    /// Gives a folder or file its name, which is empty for the root alone, and its bytes, in the place of those that
    /// it had.
    pub fn set(&mut self, node: Node, name: Text, bytes: Text)
        requires room { 1 ≤ self.old.spare }
        requires name { MayBeNamed name.items }
        ensures titles { (other : TheNode) → title_of self.new other
            ≡ cond (is_node node other) (Some (new_title node name.items bytes.items)) (title_of self.old other) }
        ensures spare { self.old.spare ≤ self.new.spare + 1 }
    {
        match node {
            Node::Folder(folder) => self.folders.put(folder.0, name, bytes),
            Node::File(file) => self.files.put(file.0, name, bytes),
        }
    }

    /// Takes a folder's or file's name and bytes out.
    pub fn forget(&mut self, node: Node)
        ensures titles { (other : TheNode) → title_of self.new other ≡ cond (is_node node other) None (title_of self.old other) }
        ensures spare { self.old.spare ≤ self.new.spare }
    {
        match node {
            Node::Folder(folder) => self.folders.take(folder.0),
            Node::File(file) => self.files.take(file.0),
        }
    }

    /// The name of a folder or file.
    pub fn name(&self, node: Node) -> Option<&[u8]>
        ensures { option_copied result ≡ option_map (λ t. t.name) (title_of self.now node) }
    {
        match node {
            Node::Folder(folder) => self.folders.name(folder.0),
            Node::File(file) => self.files.name(file.0),
        }
    }

    /// The bytes of a file.
    pub fn bytes(&self, file: FileId) -> Option<&[u8]>
        ensures { option_copied result ≡ option_map (λ t. t.bytes) (title_at self.now.files file.0) }
    {
        self.files.bytes(file.0)
    }

    /// The numbers of all folders that have the name, in ascending order, and maybe others among them.
    pub(crate) fn folders_named(&self, name: &[u8]) -> Spots<'_>
        ensures rising { IsRising (λ (q : TheSpot). q.id) result }
        ensures all { (t : Title) → In t self.now.folders → t.name ≡ name.now → In t.id (map (λ (q : TheSpot). q.id) result) }
    {
        self.folders.named(name)
    }

    /// The numbers of all files that have the name, in ascending order, and maybe others among them.
    pub(crate) fn files_named(&self, name: &[u8]) -> Spots<'_>
        ensures rising { IsRising (λ (q : TheSpot). q.id) result }
        ensures all { (t : Title) → In t self.now.files → t.name ≡ name.now → In t.id (map (λ (q : TheSpot). q.id) result) }
    {
        self.files.named(name)
    }

    /// A law: what is named has a name, or the root's.
    pub(crate) fn are_names(&self)
        ensures folders { (t : Title) → In t self.now.folders → MayBeNamed t.name }
        ensures files { (t : Title) → In t self.now.files → MayBeNamed t.name }
    {
        self.folders.are_names();
        self.files.are_names();
    }
}

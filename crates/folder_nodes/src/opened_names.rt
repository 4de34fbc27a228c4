//! The names of folders and files, and the bytes of files, as they are opened one after another.
ghost use Rattle.std.specs.Prelude.{◌≡◌, ◌+◌, ◌≤◌, [], cond, Some, IsOk, OnOk, option_map};
ghost use Rattle.std.specs.Option.{option_copied};
ghost use Rattle.cry_base.specs.declared.roles.Node.{Node as TheNode};
ghost use Rattle.folder_nodes.specs.Titles.{MayBeNamed, title_of, title_at, is_node, new_title};

use crate::name_rows::NameRows;
use cry_base::{FolderId, Mem, Node, Text};
use std::alloc::Global;
use std::marker::Model;

/// A name by its folder or file, and bytes by the file. Nothing is looked up by name, so that a name which comes has no place to find
/// among the others. `spare` is how many changes have their memory.
#[derive(Drop)]
pub struct OpenedNames {
    pub(crate) folders: NameRows,
    pub(crate) files: NameRows,
}

impl Model for OpenedNames {
    ghost use Rattle.std.specs.Prelude.{min};
    ghost use Rattle.folder_nodes.specs.Titles.{Titles};

    ghost Value = { Titles };

    ghost view = { λ a. record {
      folders = a.folders.titles;
      files = a.files.titles;
      spare = min a.folders.spare a.files.spare;
    } };
}

impl OpenedNames {
    /// No names. It takes no memory.
    pub fn new(alloc: Global) -> Self
        ensures folders { result.folders ≡ [] }
        ensures files { result.files ≡ [] }
    {
        OpenedNames {
            folders: NameRows::new(alloc),
            files: NameRows::new(alloc),
        }
    }

    /// Takes the memory of one change.
    pub fn reserve(&mut self) -> Mem<()>
        ensures folders { self.new.folders ≡ self.old.folders }
        ensures files { self.new.files ≡ self.old.files }
        ensures room { OnOk result (1 ≤ self.new.spare) }
        ensures kept { self.old.spare ≤ self.new.spare }
        ensures has_room { 1 ≤ self.old.spare → IsOk result }
    {
        self.folders.reserve()?;
        self.files.reserve()
    }

    /// Gives a folder or file its name, which is empty for the root alone, and its bytes, in the place of those that
    /// it had.
    pub fn set(&mut self, node: Node, name: Text, bytes: Text)
        requires room { 1 ≤ self.old.spare }
        requires name { MayBeNamed name.items }
        ensures titles { (other : TheNode) → title_of self.new other
            ≡ cond (is_node node other) (Some (new_title node name.items bytes.items)) (title_of self.old other) }
        ensures spare { self.old.spare ≤ self.new.spare + 1 }
    {
        match node {
            Node::Folder(folder) => self.folders.put(folder.0, name, bytes),
            Node::File(file) => self.files.put(file.0, name, bytes),
        }
    }

    /// The name of a folder.
    pub fn folder_name(&self, folder: FolderId) -> Option<&[u8]>
        ensures { option_copied result ≡ option_map (λ t. t.name) (title_at self.now.folders folder.0) }
    {
        self.folders.name(folder.0)
    }
}

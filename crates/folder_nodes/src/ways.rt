//! Ways up the tree: which folders are above a folder, and how many.
ghost use Rattle.std.specs.Prelude.{◌≡◌, ◌≤◌, ◌==◌, ◌&&◌, not, IsSome};
ghost use Rattle.cry_base.specs.Store.{folder_entry, file_entry, folder_node, depth_of, is_within};
ghost use Rattle.folder_nodes.specs.Looking.{parent_number_of, folder_number_of};

use crate::Shape;
use cry_base::{DEPTH, FolderId};

impl Shape {
    /// The number of the folder that a folder is in: 0 above the root.
    pub(crate) fn parent_number(&self, f: u32) -> u32
        ensures { result ≡ parent_number_of (folder_entry self.now.tree f) }
    {
        match self.folder_row(f) {
            Some(row) => row.parent,
            None => 0,
        }
    }

    /// The number of the folder that a file is in, and 0 where it doesn't stand.
    pub(crate) fn folder_number(&self, x: u32) -> u32
        ensures { result ≡ folder_number_of (file_entry self.now.tree x) }
    {
        match self.file_row(x) {
            Some(row) => row.folder.0,
            None => 0,
        }
    }

    /// Whether the folder is the other one or under it. It goes up from the folder.
    pub(crate) fn is_within(&self, f: u32, above: u32) -> bool
        ensures { result ≡ is_within self.now.tree f above }
    {
        self.is_tree();
        let mut here = f;
        for _climbed in 0..65u32 {
            let Some(row) = self.folder_row(here) else {
                return false;
            };
            if row.id.0 == above {
                return true;
            }
            here = row.parent;
        }
        false
    }

    /// Whether the folder is strictly under the other one. It goes up from the folder.
    pub fn is_under(&self, f: FolderId, above: FolderId) -> bool
        ensures { result ≡ (not (f.0 == above.0) && is_within self.now.tree f.0 above.0) }
    {
        f.0 != above.0 && self.is_within(f.0, above.0)
    }

    /// How many names the folder's path has. It goes up from the folder.
    pub fn depth(&self, f: FolderId) -> u32
        requires { IsSome (folder_entry self.now.tree f.0) }
        ensures depth { result ≡ depth_of self.now.tree (folder_node f.0) }
        ensures within { result ≤ 64 }
    {
        self.is_tree();
        let mut here = f.0;
        for depth in 0..DEPTH {
            let parent = self.parent_number(here);
            if parent == 0 {
                return depth;
            }
            here = parent;
        }
        DEPTH
    }
}

//! Levels of the tree below a folder.
ghost use Rattle.std.specs.Prelude.{◌≡◌, ◌+◌, ◌≤◌, ◌==◌, cond, Some, IsSome};
ghost use Rattle.std.specs.List.{list_any};
ghost use Rattle.cry_base.specs.Refusing.{deepest, height_of};
ghost use Rattle.cry_base.specs.Store.{folder_entry, folder_node, depth_of};

use crate::Shape;
use cry_base::FolderId;

impl Shape {
    /// Levels from the folder down to its deepest node: 0 where it has no child. It goes down from the folder, from child
    /// to child.
    pub fn height(&self, f: FolderId) -> u32
        requires { IsSome (folder_entry self.now.tree f.0) }
        ensures { result ≡ height_of self.now.tree (Some (folder_node f.0)) }
    {
        self.levels_below(f)
    }

    /// Levels from the folder down to its deepest node.
    fn levels_below(&self, f: FolderId) -> u32
        requires { IsSome (folder_entry self.now.tree f.0) }
        ensures levels { depth_of self.now.tree (folder_node f.0) + result ≡ deepest self.now.tree f.0 }
        ensures within { result ≤ 64 }
    {
        self.is_tree();
        let mut levels = self.file_levels(f);
        for spot in self.folders_inside(f.0) {
            if self.is_child(spot.id, f) {
                levels = levels.max(self.levels_below(FolderId(spot.id)) + 1);
            }
        }
        levels
    }

    /// Levels from the folder down to its files: 0 where it has none.
    fn file_levels(&self, f: FolderId) -> u32
        ensures { result ≡ cond (list_any (λ e. e.folder == f.0) self.now.tree.files) 1 0 }
    {
        if self.has_file_inside(f.0) { 1 } else { 0 }
    }
}

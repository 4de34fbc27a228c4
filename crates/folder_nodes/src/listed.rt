//! All rows of a shape, in the order of their numbers.
ghost use Rattle.std.specs.Prelude.{◌≡◌, length, map};
ghost use Rattle.folder_nodes.specs.Bare.{folder_of_row, file_of_row};

use crate::{FileRow, FolderRow, Shape};
use sorted_table::Walk;

impl Shape {
    /// The folders, by number.
    pub fn folders(&self) -> Walk<'_, FolderRow>
        ensures { map folder_of_row result ≡ self.now.tree.folders }
    {
        self.folders.rows()
    }

    /// How many folders stand. It looks at none of them.
    pub fn folder_count(&self) -> usize
        ensures { result ≡ length self.now.tree.folders }
    {
        self.folders.len()
    }

    /// The files, by number.
    pub fn files(&self) -> Walk<'_, FileRow>
        ensures { map file_of_row result ≡ self.now.tree.files }
    {
        self.files.rows()
    }

    /// How many files stand. It looks at none of them.
    pub fn file_count(&self) -> usize
        ensures { result ≡ length self.now.tree.files }
    {
        self.files.len()
    }
}

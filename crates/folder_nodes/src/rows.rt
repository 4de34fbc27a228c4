//! The rows of a shape: who is in which folder.
use crate::grouped::Member;
use cry_base::{FileId, FolderId};
use sorted_table::{Key, Ranked};
use std::cmp::Ordering;

/// A folder in the folder with the number `parent`, which is 0 for the root.
#[derive(Clone, Copy, Debug, PartialEq, Eq)]
pub struct FolderRow {
    /// The folder's own number.
    pub id: FolderId,
    /// The number of the folder that it is in, and 0 for the root.
    pub parent: u32,
}

/// A file in a folder.
#[derive(Clone, Copy, Debug, PartialEq, Eq)]
pub struct FileRow {
    /// The file's own number.
    pub id: FileId,
    /// The folder that it is in.
    pub folder: FolderId,
}

impl Ranked for FolderRow {
    ghost rank = { λ row. row.id.0 };

    fn compare(&self, other: &Self) -> Ordering {
        self.id.0.cmp(&other.id.0)
    }
}

impl Ranked for FileRow {
    ghost rank = { λ row. row.id.0 };

    fn compare(&self, other: &Self) -> Ordering {
        self.id.0.cmp(&other.id.0)
    }
}

impl Member for FolderRow {
    ghost group = { λ row. row.parent };

    fn number(&self) -> u32 {
        self.id.0
    }

    fn group_number(&self) -> u32 {
        self.parent
    }
}

impl Member for FileRow {
    ghost group = { λ row. row.folder.0 };

    fn number(&self) -> u32 {
        self.id.0
    }

    fn group_number(&self) -> u32 {
        self.folder.0
    }
}

/// The number of a folder that is looked up.
#[derive(Drop)]
pub(crate) struct FolderKey(pub(crate) u32);

impl Key<FolderRow> for FolderKey {
    ghost sought = { λ key. key.0 };

    fn compare_row(&self, row: &FolderRow) -> Ordering {
        row.id.0.cmp(&self.0)
    }

    fn guess(&self) -> usize {
        (self.0 as usize).saturating_sub(1)
    }
}

/// The number of a file that is looked up.
#[derive(Drop)]
pub(crate) struct FileKey(pub(crate) u32);

impl Key<FileRow> for FileKey {
    ghost sought = { λ key. key.0 };

    fn compare_row(&self, row: &FileRow) -> Ordering {
        row.id.0.cmp(&self.0)
    }

    fn guess(&self) -> usize {
        (self.0 as usize).saturating_sub(1)
    }
}

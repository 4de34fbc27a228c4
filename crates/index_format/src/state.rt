//! What a checkpoint's body says, in lists (docs/FORMAT.md, "The checkpoint"): a count of four bytes before each list but the checks, of
//! which there are as many as holders were made.
//!
//! ```text
//! state: StateNumbers, folders, files, checks, grants, keys, marks
//! body:  state, links, contents
//! ```
use crate::{
    CheckRow, ContentRow, FileRow, FolderRow, GrantRow, KeyRow, LinkRow, MarkRow, StateNumbers,
};
use cry_base::List;

/// What stands in public after a log.
#[derive(Debug, Drop, PartialEq, Eq)]
pub struct StateRows {
    /// The version, and the numbers.
    pub numbers: StateNumbers,
    /// The standing folders.
    pub folders: List<FolderRow>,
    /// The standing files.
    pub files: List<FileRow>,
    /// The check of each holder's key, by the holder's number.
    pub checks: List<CheckRow>,
    /// The standing grants.
    pub grants: List<GrantRow>,
    /// The newest key of each role.
    pub keys: List<KeyRow>,
    /// The marked roles.
    pub marks: List<MarkRow>,
}

/// A state, and where the last records of its edges and objects stand.
#[derive(Debug, Drop, PartialEq, Eq)]
pub struct BodyRows {
    /// What stands.
    pub state: StateRows,
    /// Where the link of each edge stands.
    pub links: List<LinkRow>,
    /// Where the content of each folder, file and holder stands.
    pub contents: List<ContentRow>,
}

//! What a command did to the tree, the holders or the grants: the first field of a payload.
//!
//! ```text
//! code  note         fields after the code, ids of 4 bytes, big-endian
//!    1  Root         none
//!    2  NewHolder    holder, 32 bytes of check
//!    3  NewFolder    folder, parent
//!    4  NewFile      file, folder
//!    5  Rewrite      file
//!    6  NameFile     file
//!    7  NameFolder   folder
//!    8  DropFile     file
//!    9  DropFolder   folder
//!   10  ShiftFile    file, into
//!   11  ShiftFolder  folder, into
//!   12  Give         holder, folder or clearance number
//!   13  Take         holder, folder or clearance number
//!   14  StrictRoot   none
//!   15  Upgrade      none
//! ```
use cry_base::{FileId, FolderId, HolderId};

/// What one command did (docs/FORMAT.md, "Notes and payloads").
#[derive(Clone, Copy, Debug, PartialEq, Eq)]
pub enum Note {
    /// Makes the root folder.
    Root,
    /// Makes a holder, whose key has this check.
    NewHolder { holder: HolderId, check: [u8; 32] },
    /// Makes a folder.
    NewFolder { folder: FolderId, parent: FolderId },
    /// Makes a file.
    NewFile { file: FileId, folder: FolderId },
    /// Gives a file new bytes.
    Rewrite { file: FileId },
    /// Gives a file a new name.
    NameFile { file: FileId },
    /// Gives a folder a new name.
    NameFolder { folder: FolderId },
    /// Removes a file, and all grants on it.
    DropFile { file: FileId },
    /// Removes a folder, and all grants on it.
    DropFolder { folder: FolderId },
    /// Puts a file into another folder.
    ShiftFile { file: FileId, into: FolderId },
    /// Puts a folder into another folder.
    ShiftFolder { folder: FolderId, into: FolderId },
    /// Gives a holder a grant on a folder, or on the file with the clearance number.
    Give { holder: HolderId, folder: FolderId },
    /// Takes a holder's grant on a folder, or on the file with the clearance number, away.
    Take { holder: HolderId, folder: FolderId },
    /// Makes the root folder of a store of version 2, in which what leaves a folder is closed to whoever comes later.
    StrictRoot,
    /// Makes a store of version 1 one of version 2.
    Upgrade,
}

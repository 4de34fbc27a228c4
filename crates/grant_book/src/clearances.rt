//! The numbers by which grants name what is granted: a folder by its own, a file by its clearance number, from 2^31 on.
ghost use Rattle.std.specs.Prelude.{◌≡◌, ◌<◌, MatchOption, option_map};
ghost use Rattle.cry_base.specs.Clearances as spec;
ghost use Rattle.grant_book.specs.Cleared.{as_file};

use cry_base::{CLEAR_BASE, FileId, FolderId};

/// The number by which grants name the file.
pub fn clear_number(x: FileId) -> FolderId
    requires { x.0 < spec.clear_base }
    ensures { result.0 ≡ spec.clear_number x.0 }
{
    FolderId(CLEAR_BASE + x.0)
}

/// The file that grants name by the number. There is none exactly where the number is below 2^31, and so a folder's.
pub fn file_of(f: FolderId) -> Option<FileId>
    ensures value { result ≡ option_map as_file (spec.file_of f.0) }
    ensures told { MatchOption result (f.0 < spec.clear_base) (λ x. f.0 ≡ spec.clear_number x.0) }
{
    if f.0 < CLEAR_BASE {
        return None;
    }
    Some(FileId(f.0 - CLEAR_BASE))
}

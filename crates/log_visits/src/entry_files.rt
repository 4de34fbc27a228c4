//! The files that a holder comes into by grants on them alone (docs/FORMAT.md, "Reading").
ghost use Rattle.std.specs.Prelude.{◌≡◌, ◌<◌, ◌++◌, AllPairs, IfOk, OnOk};
ghost use Rattle.cry_base.specs.declared.ids.FolderId.{FolderId as TheFolder};
ghost use Rattle.grant_book.specs.Granted.{folders_of};
ghost use Rattle.log_visits.specs.Entries as spec;
ghost use Rattle.log_visits.specs.Entries.{may_all};
ghost use Rattle.log_visits.specs.Sights.{MayRead, plain_viewer};
ghost use Rattle.public_fold.specs.Journal.{Stand};
ghost use Rattle.public_fold.specs.Standing.{IsSeenAs};

use crate::sights::{Viewer, is_allowed};
use cry_base::{FileId, FolderId, HolderId, Mem};
use folder_nodes::Shape;
use grant_book::{Grants, file_of};
use public_fold::PublicState;
use std::alloc::Global;

/// A file with a grant of the holder who reads, in a folder of which not all may be read.
#[derive(Clone, Copy, Debug, PartialEq, Eq)]
pub struct EntryFile {
    pub file: FileId,
    /// The folder that it is in.
    pub folder: FolderId,
    /// The number by which grants name it.
    pub clearance: FolderId,
}

/// The file that grants name by the number, where the number is a file's that stands.
fn file_named(shape: &Shape, number: FolderId) -> Option<EntryFile>
    ensures { result ≡ spec.file_named shape.now.tree number }
{
    let file = file_of(number)?;
    let folder = shape.folder_of(file)?;
    Some(EntryFile {
        file,
        folder,
        clearance: number,
    })
}

/// Adds the file, where not all in its folder may be read.
fn push_file(
    entries: &mut Vec<EntryFile>,
    alloc: Global,
    shape: &Shape,
    grants: &Grants,
    h: HolderId,
    file: EntryFile,
) -> Mem<()>
    ensures { OnOk result (entries.new.items
        ≡ entries.old.items ++ spec.entry_alone (may_all shape.now.tree grants.now.pairs h.0 file.folder.0) file) }
{
    if !is_allowed(alloc, shape, grants, h, file.folder)? {
        entries.push(file)?;
    }
    Ok(())
}

/// Adds the file that grants name by the number, where it is one in a folder of which not all may be read.
fn push_entry(
    entries: &mut Vec<EntryFile>,
    alloc: Global,
    shape: &Shape,
    grants: &Grants,
    h: HolderId,
    number: FolderId,
) -> Mem<()>
    ensures { OnOk result (entries.new.items ≡ entries.old.items ++ spec.entry_at shape.now.tree grants.now.pairs h.0 number) }
{
    match file_named(shape, number) {
        Some(file) => push_file(entries, alloc, shape, grants, h, file),
        None => Ok(()),
    }
}

fn holders_entries(
    alloc: Global,
    shape: &Shape,
    grants: &Grants,
    h: HolderId,
) -> Mem<Vec<EntryFile>>
    ensures { IfOk result (λ l. (l.items ≡ spec.entries_of shape.now.tree grants.now.pairs h.0)
        × AllPairs (λ (a b : TheFolder). a.0 < b.0) (folders_of grants.now.pairs h.0)) }
{
    let granted = grants.of_holder(h)?;
    let mut entries = Vec::new(alloc);
    for number in granted.as_slice() {
        push_entry(&mut entries, alloc, shape, grants, h, *number)?;
    }
    Ok(entries)
}

/// The files that whoever reads comes into by grants on them alone, by their numbers. It looks at no file without a grant, and the
/// owner has none.
pub fn entry_files_of(alloc: Global, state: &PublicState, viewer: Viewer) -> Mem<Vec<EntryFile>>
    ensures { IfOk result (λ l. (at : Stand) → IsSeenAs state.now at → MayRead at.store (plain_viewer viewer)
        → spec.AreEntryFiles at.store (plain_viewer viewer) l.items) }
{
    let shape = state.shape();
    shape.is_tree();
    match viewer {
        Viewer::Owner => Ok(Vec::new(alloc)),
        Viewer::Holder(h) => holders_entries(alloc, shape, state.grants(), h),
    }
}

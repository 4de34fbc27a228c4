//! Which files are opened for whoever reads (docs/FORMAT.md, "Reading").
ghost use Rattle.std.specs.Prelude.{◌≡◌, ◌||◌, ℕ, IfOk, OnOk, filter};
ghost use Rattle.std.specs.HashSet.{contains};
ghost use Rattle.std.specs.List.{list_any};
ghost use Rattle.holder_client.specs.Filed.{is_allowed, is_entry};
ghost use Rattle.log_visits.specs.Sights as spec;

use cry_base::Mem;
use folder_nodes::FileRow;
use log_visits::{EntryFile, Sight};
use sorted_table::Walk;
use std::alloc::Global;
use std::collections::HashSet;

/// Notes the folder, where all in it may be read.
fn note_allowed(folders: &mut HashSet<u32>, sight: &Sight) -> Mem<()>
    ensures { OnOk result ((f : ℕ) → contains spec.same_number folders.new f
        ≡ (contains spec.same_number folders.old f || spec.opens f sight.now)) }
{
    if sight.allowed {
        folders.insert(sight.folder.0)?;
    }
    Ok(())
}

/// The folders that are allowed.
fn allowed_folders(alloc: Global, sights: &[Sight]) -> Mem<HashSet<u32>>
    ensures { IfOk result (λ folders. (f : ℕ) → contains spec.same_number folders f ≡ list_any (spec.opens f) sights.now) }
{
    let mut folders = HashSet::new(alloc);
    for sight in sights {
        note_allowed(&mut folders, sight)?;
    }
    Ok(folders)
}

/// The numbers of the entry files.
fn entry_numbers(alloc: Global, entries: &[EntryFile]) -> Mem<HashSet<u32>>
    ensures { IfOk result (λ numbers. (x : ℕ) → contains spec.same_number numbers x ≡ list_any (is_entry x) entries.now) }
{
    let mut numbers = HashSet::new(alloc);
    for entry in entries {
        numbers.insert(entry.file.0)?;
    }
    Ok(numbers)
}

fn is_in(folders: &HashSet<u32>, numbers: &HashSet<u32>, row: &FileRow) -> bool
    ensures { result ≡ (contains spec.same_number folders.now row.now.folder.0 || contains spec.same_number numbers.now row.now.id.0) }
{
    folders.contains(&row.folder.0) || numbers.contains(&row.id.0)
}

/// The files in these folders, and those with these numbers.
pub(crate) fn files_in(
    alloc: Global,
    folders: &HashSet<u32>,
    numbers: &HashSet<u32>,
    files: Walk<'_, FileRow>,
) -> Mem<Vec<FileRow>>
    ensures { IfOk result (λ l. l.items ≡ filter (λ r. contains spec.same_number folders.now r.folder.0
        || contains spec.same_number numbers.now r.id.0) files.entry) }
{
    let mut found = Vec::new(alloc);
    for row in files {
        if is_in(folders, numbers, row) {
            found.push(*row)?;
        }
    }
    Ok(found)
}

/// The files that are allowed: those in folders that are, and the entry files.
pub(crate) fn allowed_files(
    alloc: Global,
    sights: &[Sight],
    entries: &[EntryFile],
    files: Walk<'_, FileRow>,
) -> Mem<Vec<FileRow>>
    ensures { IfOk result (λ l. l.items ≡ filter (is_allowed sights.now entries.now) files.entry) }
{
    let folders = allowed_folders(alloc, sights)?;
    let numbers = entry_numbers(alloc, entries)?;
    files_in(alloc, &folders, &numbers, files)
}

//! The one line of a path that a key shows (docs/FORMAT.md, "Reading").
ghost use Rattle.std.specs.Prelude.{◌≡◌, ◌<◌, ◌≤◌, ◌||◌, ℕ, Err, IfOk, Ok, OnOk, filter, find, map, option_map, true};
ghost use Rattle.std.specs.HashSet.{contains};
ghost use Rattle.std.specs.List.{flat_map, list_any};
ghost use Rattle.std.specs.Str.{bytes_eq};
ghost use Rattle.cry_io.specs.Reading.{IsOnlyRead};
ghost use Rattle.commit_journal.specs.Streaming.{ShowsGiven};
ghost use Rattle.cry_base.specs.Naming.{is_path, parent_path, spell_path};
ghost use Rattle.cry_base.specs.Store.{folder_names};
ghost use Rattle.cry_base.specs.declared.roles.Role.TheVariants.{Owner};
ghost use Rattle.cry_io.specs.Told.{WhereTold};
ghost use Rattle.folder_nodes.specs.Titles.{tree_store};
ghost use Rattle.log_visits.specs.Answering.{AnswersAs};
ghost use Rattle.log_visits.specs.Asking.{line_shown, line_with};
ghost use Rattle.log_visits.specs.Asking as asking;
ghost use Rattle.holder_client.specs.Beside as spec;
ghost use Rattle.log_visits.specs.Holding.{IsReadingIn};
ghost use Rattle.log_visits.specs.Judging.{who_of};
ghost use Rattle.holder_client.specs.Lines.{lines_of, plain_line, read_line};
ghost use Rattle.holder_client.specs.Reads.{HasRead, HasStarts};
ghost use Rattle.log_visits.specs.Sights.{MayRead, same_number};
ghost use Rattle.log_visits.specs.View.{line_path};
ghost use Rattle.log_visits.specs.Visiting.{Reading};
ghost use Rattle.public_fold.specs.KeyStep.{present};

use crate::file_rows::files_in;
use crate::lines::{folder_lines, path_of, push_files};
use crate::log_reader::Reader;
use crate::log_reading::{ReadLog, read_log};
use crate::reading::{ReadFile, open_names, read_files, viewer_of};
use crate::streamed_log::StreamedLog;
use commit_journal::PublicLog;
use cry_base::{Bundle, FolderId, Line, Mem};
use cry_io::Disk;
use folder_nodes::{FileRow, OpenedNames, Shape, front_of, path_ok};
use log_visits::{
    ClientFault, EntryFile, OwnersView, Records, Sight, all_sights, entry_files_of, folder_path,
    is_nameless,
};
use public_fold::PublicState;
use sorted_table::Walk;
use std::alloc::Global;
use std::collections::HashSet;

fn has_path(line: &Line, path: &[u8]) -> bool
    ensures { result ≡ bytes_eq (line_path (plain_line line.now)) path.now }
{
    path_of(line) == path
}

/// The first of the lines that has the path.
fn line_at(lines: Vec<Line>, path: &[u8]) -> Option<Line>
    ensures { result ≡ find (λ l. bytes_eq (line_path (plain_line l)) path.now) lines.items }
{
    lines.into_iter().find(|line| has_path(line, path))
}

/// The line of the first folder that is named and has the path.
fn folder_at(
    alloc: Global,
    shape: &Shape,
    names: &OpenedNames,
    sights: &[Sight],
    path: &[u8],
) -> Mem<Option<Line>>
    ensures { IfOk result (λ line. option_map plain_line line
        ≡ asking.line_at path.now (flat_map (lines_of (tree_store shape.now.tree names.now)) sights.now)) }
{
    let lines = folder_lines(alloc, shape, names, sights)?;
    Ok(line_at(lines, path))
}

/// The line of the first of the files that has the path.
fn file_at(
    alloc: Global,
    shape: &Shape,
    names: &OpenedNames,
    files: Vec<ReadFile>,
    path: &[u8],
) -> Mem<Option<Line>>
    ensures { IfOk result (λ line. option_map plain_line line
        ≡ asking.line_at path.now (map (read_line (tree_store shape.now.tree names.now)) files.items)) }
{
    let mut lines = Vec::new(alloc);
    push_files(&mut lines, alloc, shape, names, files)?;
    Ok(line_at(lines, path))
}

/// The path without its last name; the root's is its own.
fn parent_of(path: &[u8]) -> &[u8]
    requires { is_path path.now ≡ true }
    ensures { result.now ≡ parent_path path.now }
{
    if path == b"/".as_slice() {
        return path;
    }
    front_of(path)
}

/// Whether the folder has the path.
fn is_at(alloc: Global, shape: &Shape, names: &OpenedNames, f: FolderId, path: &[u8]) -> Mem<bool>
    ensures { IfOk result (λ is. is ≡ bytes_eq (spell_path (folder_names (tree_store shape.now.tree names.now) f.0)) path.now) }
{
    let own = folder_path(alloc, shape, names, f)?;
    Ok(own.as_slice() == path)
}

/// Whether all in the folder may be read, and it has the path.
fn is_open_at(
    alloc: Global,
    shape: &Shape,
    names: &OpenedNames,
    sight: &Sight,
    path: &[u8],
) -> Mem<bool>
    ensures { IfOk result (λ is. is ≡ spec.is_open_at (tree_store shape.now.tree names.now) path.now sight.now) }
{
    if !sight.allowed {
        return Ok(false);
    }
    is_at(alloc, shape, names, sight.folder, path)
}

/// Notes the folder, where all in it may be read and it has the path.
fn note_open(
    folders: &mut HashSet<u32>,
    alloc: Global,
    shape: &Shape,
    names: &OpenedNames,
    sight: &Sight,
    path: &[u8],
) -> Mem<()>
    ensures { OnOk result ((f : ℕ) → contains same_number folders.new f
        ≡ (contains same_number folders.old f || spec.opens_at (tree_store shape.now.tree names.now) path.now f sight.now)) }
{
    if is_open_at(alloc, shape, names, sight, path)? {
        folders.insert(sight.folder.0)?;
    }
    Ok(())
}

/// The folders with the path that are allowed.
fn folders_open_at(
    alloc: Global,
    shape: &Shape,
    names: &OpenedNames,
    sights: &[Sight],
    path: &[u8],
) -> Mem<HashSet<u32>>
    ensures { IfOk result (λ folders. (f : ℕ)
        → contains same_number folders f ≡ list_any (spec.opens_at (tree_store shape.now.tree names.now) path.now f) sights.now) }
{
    let mut folders = HashSet::new(alloc);
    for sight in sights {
        note_open(&mut folders, alloc, shape, names, sight, path)?;
    }
    Ok(folders)
}

/// Notes the entry file's number, where its folder has the path.
fn note_entry(
    numbers: &mut HashSet<u32>,
    alloc: Global,
    shape: &Shape,
    names: &OpenedNames,
    entry: &EntryFile,
    path: &[u8],
) -> Mem<()>
    ensures { OnOk result ((x : ℕ) → contains same_number numbers.new x
        ≡ (contains same_number numbers.old x || spec.is_entry_at (tree_store shape.now.tree names.now) path.now x entry.now)) }
{
    if is_at(alloc, shape, names, entry.folder, path)? {
        numbers.insert(entry.file.0)?;
    }
    Ok(())
}

/// The numbers of the entry files in folders with the path.
fn entries_at(
    alloc: Global,
    shape: &Shape,
    names: &OpenedNames,
    entries: &[EntryFile],
    path: &[u8],
) -> Mem<HashSet<u32>>
    ensures { IfOk result (λ numbers. (x : ℕ)
        → contains same_number numbers x ≡ list_any (spec.is_entry_at (tree_store shape.now.tree names.now) path.now x) entries.now) }
{
    let mut numbers = HashSet::new(alloc);
    for entry in entries {
        note_entry(&mut numbers, alloc, shape, names, entry, path)?;
    }
    Ok(numbers)
}

/// The files that are allowed in folders with the path that this path, without its last name, is.
fn files_beside(
    alloc: Global,
    shape: &Shape,
    names: &OpenedNames,
    sights: &[Sight],
    entries: &[EntryFile],
    files: Walk<'_, FileRow>,
    path: &[u8],
) -> Mem<Vec<FileRow>>
    ensures { IfOk result (λ l. l.items
        ≡ filter (spec.is_row_beside (tree_store shape.now.tree names.now) sights.now entries.now path.now) files.entry) }
{
    if !path_ok(path) {
        return Ok(Vec::new(alloc));
    }
    let parent = parent_of(path);
    let folders = folders_open_at(alloc, shape, names, sights, parent)?;
    let numbers = entries_at(alloc, shape, names, entries, parent)?;
    files_in(alloc, &folders, &numbers, files)
}

/// Opens what the path needs of a log that may be read.
fn open_at<S, R: Records<S>>(
    alloc: Global,
    bundle: &Bundle,
    state: &PublicState,
    records: &R,
    source: &mut S,
    path: &[u8],
) -> Result<Line, ClientFault>
    requires owner { present state.now.keys.keys Owner ≡ 0 }
    ensures answer { R.shows records.now source.old → (r : Reading) → IsReadingIn state.now (R.log records.now) r
        → MayRead r.stand.store (who_of bundle.now) → AnswersAs plain_line result (spec.path_opened bundle.now path.now r) }
    ensures stays { R.stays source.old source.new }
    ensures disk_fault { result ≡ Err ClientFault.DiskFault → R.faults source.old < R.faults source.new }
{
    is_nameless(state);
    let seen = all_sights(alloc, state, viewer_of(bundle))?;
    let entered = entry_files_of(alloc, state, viewer_of(bundle))?;
    let entries = entered.as_slice();
    let OwnersView { ring, names } = open_names(
        alloc,
        bundle,
        state,
        records,
        source,
        seen.as_slice(),
        entries,
    )?;
    let shape = state.shape();
    if let Some(line) = folder_at(alloc, shape, &names, seen.as_slice(), path)? {
        return Ok(line);
    }
    let files = shape.files();
    let found = files_beside(alloc, shape, &names, seen.as_slice(), entries, files, path)?;
    let rows = found.as_slice();
    let files = read_files(alloc, state, records, source, ring, entries, rows)?;
    match file_at(alloc, shape, &names, files, path)? {
        Some(line) => Ok(line),
        None => Err(ClientFault::Unseen),
    }
}

impl Reader {
    /// The one line of a path that the bundle's key shows of the log whose batches were added. The conditions, and the faults before
    /// the visits, are those of [`Reader::view`](crate::Reader::view); the visits and `Unseen` are those of
    /// [`open_path`](crate::open_path).
    pub fn open_path<D: Disk>(
        &self,
        alloc: Global,
        log: &PublicLog,
        disk: &mut D,
        bundle: &Bundle,
        path: &[u8],
    ) -> Result<Line, ClientFault>
        requires read { HasRead self.now log.now.given }
        requires starts { HasStarts self.now log.now.starts }
        requires shows { WhereTold (D.shown disk.old) (λ s. ShowsGiven log.now s) }
        ensures answer { WhereTold (D.shown disk.old)
            (λ _. AnswersAs plain_line result (line_with bundle.now path.now (Ok log.now.given))) }
        ensures read_only { IsOnlyRead D.Disk disk.old disk.new }
        ensures counts { D.faults disk.old ≤ D.faults disk.new }
        ensures disk_fault { result ≡ Err ClientFault.DiskFault → D.faults disk.old < D.faults disk.new }
    {
        self.admit(bundle)?;
        let records = StreamedLog {
            log,
            index: &self.index,
        };
        open_at(alloc, bundle, &self.state, &records, disk, path)
    }
}

/// The one line of a path that the bundle's key shows: that of a folder that is named, or else of a file that is allowed. The disk is
/// never written.
///
/// Its faults before the visits are those of [`view`](crate::view). No file is visited but those beside the path, which are all
/// visited before one is shown, so a bad one beside the path is told; where a folder has the path, or the path has another form than
/// that of paths, no file is visited. `Unseen` comes exactly where these visits pass and no line has the path.
pub fn open_path<D: Disk>(
    alloc: Global,
    disk: &mut D,
    bundle: &Bundle,
    path: &[u8],
) -> Result<Line, ClientFault>
    ensures verdict { WhereTold (D.shown disk.old) (λ s. AnswersAs plain_line result (line_shown bundle.now path.now s)) }
    ensures read_only { IsOnlyRead D.Disk disk.old disk.new }
    ensures counts { D.faults disk.old ≤ D.faults disk.new }
    ensures disk_fault { result ≡ Err ClientFault.DiskFault → D.faults disk.old < D.faults disk.new }
{
    let ReadLog { log, kept: reader }: ReadLog<Reader> = read_log(alloc, disk, bundle)?;
    reader.open_path(alloc, &log, disk, bundle, path)
}

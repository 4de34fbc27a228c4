//! What a bundle's key opens: the names of folders, and then the names and bytes of files, one file after another (docs/FORMAT.md,
//! "Reading").
ghost use Rattle.std.specs.Prelude.{◌≡◌, ◌≢◌, ◌<◌, [], ◌∷◌, ◌++◌, Err, IfOk, List, OnOk, map};
ghost use Rattle.std.specs.HashMap.{get};
ghost use Rattle.std.specs.List.{flat_map};
ghost use Rattle.cry_base.specs.Store.{Store};
ghost use Rattle.cry_base.specs.declared.roles.Role.TheVariants.{Owner};
ghost use Rattle.folder_nodes.specs.Titles.{Titles};
ghost use Rattle.folder_nodes.specs.Trees.{IsTree};
ghost use Rattle.log_visits.specs.Answering.{AnswersBy};
ghost use Rattle.holder_client.specs.Filed.{AreStanding, HasClearances, IsNamedBy, IsReadBy, everyone, file_stops, with_read};
ghost use Rattle.holder_client.specs.Filed as spec_files;
ghost use Rattle.log_visits.specs.Entries.{AreEntryFiles};
ghost use Rattle.log_visits.specs.declared.entry_files.EntryFile.{EntryFile as TheEntry};
ghost use Rattle.log_visits.specs.Holding.{ArePresent, HasNames, HoldsKeys, IsReadingIn};
ghost use Rattle.log_visits.specs.Judging.{first_key, opened_first, who_of};
ghost use Rattle.log_visits.specs.Opening.{IsNameless};
ghost use Rattle.log_visits.specs.Sights.{AreSights, plain_viewer, same_number};
ghost use Rattle.log_visits.specs.Visiting.{Opened, Reading};
ghost use Rattle.log_visits.specs.Visiting as spec;
ghost use Rattle.log_visits.specs.Visits as visits;
ghost use Rattle.public_fold.specs.KeyStep.{present};

use chacha_seal::Key;
use cry_base::{Bundle, Edge, FolderId, Mem, Role, Text};
use folder_nodes::{FileRow, OpenedNames};
use key_links::KeyRing;
use log_visits::{
    ClientFault, EntryFile, NamedBytes, OwnersView, Records, Sight, Viewer, open_file,
    present_serial, visit_each, visit_link, visits_to_names,
};
use public_fold::PublicState;
use record_format::FILE_TEXT;
use role_graph::kinds;
use std::alloc::Global;
use std::collections::HashMap;

/// Who reads with a bundle.
#[tactic(auto, unfolding(log_visits::specs::Judging::who_of))]
pub(crate) fn viewer_of(bundle: &Bundle) -> Viewer
    ensures { plain_viewer result ≡ who_of bundle.now }
{
    match bundle {
        Bundle::Owner { .. } => Viewer::Owner,
        Bundle::Holder { holder, .. } => Viewer::Holder(*holder),
    }
}

/// The ring with the bundle's own key alone.
fn first_ring(alloc: Global, bundle: &Bundle, state: &PublicState) -> KeyRing
    requires { present state.now.keys.keys Owner ≡ 0 }
    ensures keys { HoldsKeys everyone result (first_key bundle.now ∷ []) }
    ensures present { ArePresent state.now.keys.keys result }
{
    match bundle {
        Bundle::Owner { key } => KeyRing::new(alloc, Key::owner(*key)),
        Bundle::Holder { holder, key } => {
            let serial = present_serial(state, Role::Holder(*holder));
            KeyRing::of_holder(alloc, Key::holder(*holder, serial, *key))
        }
    }
}

/// Opens all keys up to those of the folders' names, and the names: the visits before those of files, up to the first that fails.
pub(crate) fn open_names<S, R: Records<S>>(
    alloc: Global,
    bundle: &Bundle,
    state: &PublicState,
    records: &R,
    source: &mut S,
    sights: &[Sight],
    entries: &[EntryFile],
) -> Result<OwnersView, ClientFault>
    requires owner { present state.now.keys.keys Owner ≡ 0 }
    requires nameless { IsNameless state.now.tree }
    ensures answer { R.shows records.now source.old → (r : Reading) → IsReadingIn state.now (R.log records.now) r → IsTree r.stand.store
        → AreSights r.stand.store (who_of bundle.now) sights.now → AreEntryFiles r.stand.store (who_of bundle.now) entries.now →
        AnswersBy (λ view o. IsNamedBy r.stand.store view o) result
        (spec.visit_all r (visits.visits_to_names r.stand.store (who_of bundle.now)) (opened_first bundle.now r)) }
    ensures present { IfOk result (λ view. ArePresent state.now.keys.keys view.ring) }
    ensures seen { result ≢ Err ClientFault.Unseen }
    ensures stays { R.stays source.old source.new }
    ensures disk_fault { result ≡ Err ClientFault.DiskFault → R.faults source.old < R.faults source.new }
{
    let visits = visits_to_names(alloc, viewer_of(bundle), sights, entries)?;
    let before = OwnersView {
        ring: first_ring(alloc, bundle, state),
        names: OpenedNames::new(alloc),
    };
    visit_each(alloc, state, records, source, visits.as_slice(), before)
}

/// A file with its name and its bytes.
#[derive(Drop)]
pub(crate) struct ReadFile {
    pub(crate) row: FileRow,
    pub(crate) name: Text,
    pub(crate) bytes: Text,
}

/// The clearance of each entry file, by the file's number.
type Clearances = HashMap<u32, FolderId>;

/// Notes the clearance of an entry file, where none was noted for that before.
fn note_clearance(clearances: &mut Clearances, entry: &EntryFile) -> Mem<()>
    ensures { OnOk result ((so_far : List TheEntry) → HasClearances clearances.old so_far
        → HasClearances clearances.new (so_far ++ entry.now ∷ [])) }
{
    if clearances.contains_key(&entry.file.0) {
        return Ok(());
    }
    clearances.insert(entry.file.0, entry.clearance)?;
    Ok(())
}

fn clearances_of(alloc: Global, entries: &[EntryFile]) -> Mem<Clearances>
    ensures { IfOk result (λ clearances. HasClearances clearances entries.now) }
{
    let mut clearances = HashMap::new(alloc);
    for entry in entries {
        note_clearance(&mut clearances, entry)?;
    }
    Ok(clearances)
}

/// The edge into a file: from its clearance where it is an entry file, and else from the files key of its folder.
#[tactic(auto, unfolding(role_graph::specs::Edges::file_edge, role_graph::specs::Edges::edge, role_graph::specs::Roles::clear_of, role_graph::specs::Roles::files_of, role_graph::specs::Roles::file_role))]
fn edge_into(clearances: &Clearances, row: &FileRow) -> Edge
    ensures { result ≡ spec_files.edge_from row.now (get same_number clearances.now row.now.id.0) }
{
    match clearances.get(&row.id.0) {
        Some(clearance) => kinds::clearance_to_file(*clearance, row.id),
        None => kinds::files_to_file(row.folder, row.id),
    }
}

/// Opens the key of a file by the edge into it, and then the file's text.
fn read_file<S, R: Records<S>>(
    alloc: Global,
    state: &PublicState,
    records: &R,
    source: &mut S,
    clearances: &Clearances,
    ring: &mut KeyRing,
    row: &FileRow,
) -> Result<ReadFile, ClientFault>
    requires keys { ArePresent state.now.keys.keys ring.old }
    ensures answer { R.shows records.now source.old → (r : Reading) (o : Opened) (entries : List TheEntry)
        → IsReadingIn state.now (R.log records.now) r → HasClearances clearances.now entries
        → AreStanding r.stand.store entries (row.now ∷ []) → HoldsKeys everyone ring.old o.keys →
        AnswersBy (λ file behind. HoldsKeys everyone ring.new behind.keys
        × IsReadBy file o behind) result (spec.visit_all r (file_stops entries row.now) o) }
    ensures row { IfOk result (λ file. file.row ≡ row.now) }
    ensures keys { OnOk result (ArePresent state.now.keys.keys ring.new) }
    ensures seen { result ≢ Err ClientFault.Unseen }
    ensures stays { R.stays source.old source.new }
    ensures disk_fault { result ≡ Err ClientFault.DiskFault → R.faults source.old < R.faults source.new }
{
    let edge = edge_into(clearances, row);
    visit_link(state, records.link_for(state, &edge), ring, &edge)?;
    let text = records.content_for(alloc, source, FILE_TEXT, row.id.0)?;
    let NamedBytes { name, bytes } = open_file(alloc, text, ring, row.id)?;
    Ok(ReadFile {
        row: *row,
        name,
        bytes,
    })
}

fn keep(files: &mut Vec<ReadFile>, file: ReadFile) -> Mem<()>
    ensures { OnOk result (files.new.items ≡ files.old.items ++ file ∷ []) }
{
    files.push(file)?;
    Ok(())
}

/// Opens the files one after another, up to the first that fails.
pub(crate) fn read_files<S, R: Records<S>>(
    alloc: Global,
    state: &PublicState,
    records: &R,
    source: &mut S,
    ring: KeyRing,
    entries: &[EntryFile],
    rows: &[FileRow],
) -> Result<Vec<ReadFile>, ClientFault>
    requires keys { ArePresent state.now.keys.keys ring }
    ensures answer { R.shows records.now source.old → (r : Reading) (o : Opened) (bare : Store) (names : Titles)
        → IsReadingIn state.now (R.log records.now) r → AreStanding r.stand.store entries.now rows.now → HoldsKeys everyone ring o.keys
        → HasNames bare names o.store →
        AnswersBy (λ files behind. HasNames bare (with_read names files.items) behind.store) result
        (spec.visit_all r (flat_map (file_stops entries.now) rows.now) o) }
    ensures rows { IfOk result (λ files. map (λ file. file.row) files.items ≡ rows.now) }
    ensures seen { result ≢ Err ClientFault.Unseen }
    ensures stays { R.stays source.old source.new }
    ensures disk_fault { result ≡ Err ClientFault.DiskFault → R.faults source.old < R.faults source.new }
{
    let clearances = clearances_of(alloc, entries)?;
    let mut ring = ring;
    let mut files = Vec::new(alloc);
    for row in rows {
        let file = read_file(alloc, state, records, source, &clearances, &mut ring, row)?;
        keep(&mut files, file)?;
    }
    Ok(files)
}

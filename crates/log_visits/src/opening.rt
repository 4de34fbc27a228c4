//! Opens all that an owner's key opens (docs/FORMAT.md, "Opening for writing").
ghost use Rattle.std.specs.Prelude.{◌≡◌, ◌≢◌, ◌<◌, ◌++◌, ◌∷◌, [], All, Bool, Err, IfErr, IfOk, IfSome, IsTrue, List, OnOk, map};
ghost use Rattle.std.specs.List.{AllByRecursion};
ghost use Rattle.commit_journal.specs.Placed.{plain_placed};
ghost use Rattle.commit_journal.specs.Places.{IsStanding};
ghost use Rattle.cry_base.specs.declared.roles.Role.{Role as TheRole};
ghost use Rattle.cry_base.specs.declared.roles.Role.TheVariants.{Owner};
ghost use Rattle.log_visits.specs.Answering.{AnswersBy};
ghost use Rattle.log_visits.specs.Found.{IsLinkFor, plain_link};
ghost use Rattle.log_visits.specs.Holding.{ArePresent, AreSized, HasKind, HoldsKeys, IsPresent, IsReadingIn, IsReadingOf};
ghost use Rattle.log_visits.specs.Placing.{link_for};
ghost use Rattle.log_visits.specs.Opening.{FailsBy, HasItsKind, IsFor, IsOpenedBy, IsOpenedTo, LeadsOn};
ghost use Rattle.log_visits.specs.Opening.{file_row_visits, owner_list, plain_visit};
ghost use Rattle.log_visits.specs.Visiting.{Opened, Reading};
ghost use Rattle.log_visits.specs.Visiting as spec;
ghost use Rattle.log_visits.specs.Visits.{Visit as PlainVisit, all_visits, writing_visits};
ghost use Rattle.log_visits.specs.Visits.Visit.{ToKey};
ghost use Rattle.key_links.specs.Ringed.{key_of};
ghost use Rattle.role_graph.specs.Rights.Who.{TheOwner};

use crate::ClientFault;
use crate::indexed_log::IndexedLog;
use crate::last_links::FoundLink;
use crate::records::Records;
use crate::texts::{visit_file, visit_holder, visit_name};
use crate::visit_list::{OwnerVisits, Visit, of_file, owner_visits};
use crate::visiting::visit_edge;
use chacha_seal::{Key, OwnerK};
use commit_journal::Placed;
use cry_base::Edge;
use folder_nodes::{FileRow, OpenedNames};
use key_links::KeyRing;
use public_fold::PublicState;
use record_format::{FILE_TEXT, FOLDER_NAME, HOLDER_KEY};
use sorted_table::Walk;
use std::alloc::Global;

/// What an owner's key opens of a store: the present keys, and the names and bytes.
#[derive(Drop)]
pub struct OwnersView {
    /// The key of each role that stands, and of each holder.
    pub ring: KeyRing,
    /// The name of each folder and file, and the bytes of each file.
    pub names: OpenedNames,
}

/// Makes room for the edge's key, and visits it.
pub fn visit_link(
    state: &PublicState,
    found: Option<FoundLink>,
    ring: &mut KeyRing,
    edge: &Edge,
) -> Result<(), ClientFault>
    requires found { IfSome found (IsLinkFor state.now.keys edge.now) }
    requires kind { HasKind edge.now }
    requires keys { ArePresent state.now.keys.keys ring.old }
    ensures answer { (told : TheRole → Bool) (r : Reading) (o : Opened) → plain_link found ≡ link_for r.stand.keys r.log edge.now
        → IsTrue (told edge.now.from) → HoldsKeys told ring.old o.keys →
        AnswersBy (λ _ behind. HoldsKeys told ring.new behind.keys × (behind.store ≡ o.store)) result (spec.visit r (ToKey edge.now) o) }
    ensures keys { OnOk result (ArePresent state.now.keys.keys ring.new) }
    ensures others { OnOk result ((role : TheRole) → role ≢ edge.now.to → key_of ring.new role ≡ key_of ring.old role) }
    ensures seen { result ≢ Err ClientFault.Unseen }
    ensures no_disk { result ≢ Err ClientFault.DiskFault }
{
    ring.reserve(1)?;
    visit_edge(state, found, ring, edge)
}

/// Makes one visit, as the definition says. `Damaged` behind the header comes exactly where its record or the key of that is
/// missing, `Tampered` with the record's place exactly where its tag is wrong, and `Damaged` with the place of a content exactly
/// where its text has another form.
fn visit_one<S, R: Records<S>>(
    alloc: Global,
    state: &PublicState,
    records: &R,
    source: &mut S,
    view: &mut OwnersView,
    visit: &Visit,
) -> Result<(), ClientFault>
    requires kind { HasItsKind (plain_visit visit.now) }
    requires keys { ArePresent state.now.keys.keys view.old.ring }
    ensures answer { R.shows records.now source.old → (told : TheRole → Bool) (r : Reading) (o : Opened) (left : List PlainVisit)
        → IsFor told (plain_visit visit.now) →
        IsReadingIn state.now (R.log records.now) r → IsOpenedTo told r.stand.store (plain_visit visit.now ∷ left) view.old o →
        AnswersBy (λ _ behind. IsOpenedTo told r.stand.store left view.new behind) result (spec.visit r (plain_visit visit.now) o) }
    ensures keys { OnOk result (ArePresent state.now.keys.keys view.new.ring) }
    ensures sized { OnOk result (AreSized view.old.names → AreSized view.new.names) }
    ensures seen { result ≢ Err ClientFault.Unseen }
    ensures stays { R.stays source.old source.new }
    ensures disk_fault { result ≡ Err ClientFault.DiskFault → R.faults source.old < R.faults source.new }
{
    match visit {
        Visit::Link { edge } => {
            let found = records.link_for(state, edge);
            visit_link(state, found, &mut view.ring, edge)
        }
        Visit::Name { folder } => {
            let name = records.content_for(alloc, source, FOLDER_NAME, folder.0)?;
            visit_name(alloc, name, &view.ring, &mut view.names, *folder)
        }
        Visit::Bytes { file } => {
            let text = records.content_for(alloc, source, FILE_TEXT, file.0)?;
            visit_file(alloc, text, &view.ring, &mut view.names, *file)
        }
        Visit::Key { holder } => {
            let key = records.content_for(alloc, source, HOLDER_KEY, holder.0)?;
            visit_holder(state, key, &mut view.ring, *holder)
        }
    }
}

/// Makes some visits of more, one after another, up to the first that fails.
fn visit_part<S, R: Records<S>>(
    alloc: Global,
    state: &PublicState,
    records: &R,
    source: &mut S,
    visits: &[Visit],
    view: &mut OwnersView,
) -> Result<(), ClientFault>
    requires kinds { AllByRecursion HasItsKind (map plain_visit visits.now) }
    requires keys { ArePresent state.now.keys.keys view.old.ring }
    requires sized { AreSized view.old.names }
    ensures visited { R.shows records.now source.old
        → OnOk result (LeadsOn state.now (R.log records.now) (map plain_visit visits.now) view.old view.new) }
    ensures failed { R.shows records.now source.old
        → IfErr result (FailsBy state.now (R.log records.now) (map plain_visit visits.now) view.old) }
    ensures keys { OnOk result (ArePresent state.now.keys.keys view.new.ring) }
    ensures sized { OnOk result (AreSized view.new.names) }
    ensures seen { result ≢ Err ClientFault.Unseen }
    ensures stays { R.stays source.old source.new }
    ensures disk_fault { result ≡ Err ClientFault.DiskFault → R.faults source.old < R.faults source.new }
{
    for visit in visits {
        visit_one(alloc, state, records, source, view, visit)?;
    }
    Ok(())
}

/// Makes the visits one after another, up to the first that fails.
pub fn visit_each<S, R: Records<S>>(
    alloc: Global,
    state: &PublicState,
    records: &R,
    source: &mut S,
    visits: &[Visit],
    before: OwnersView,
) -> Result<OwnersView, ClientFault>
    requires kinds { AllByRecursion HasItsKind (map plain_visit visits.now) }
    requires keys { ArePresent state.now.keys.keys before.ring }
    requires sized { AreSized before.names }
    ensures answer { R.shows records.now source.old → (told : TheRole → Bool) (r : Reading) (o : Opened)
        → AllByRecursion (IsFor told) (map plain_visit visits.now) →
        IsReadingIn state.now (R.log records.now) r → IsOpenedTo told r.stand.store (map plain_visit visits.now) before o →
        AnswersBy (λ view behind. IsOpenedTo told r.stand.store [] view behind) result (spec.visit_all r (map plain_visit visits.now) o) }
    ensures keys { IfOk result (λ view. ArePresent state.now.keys.keys view.ring) }
    ensures sized { IfOk result (λ view. AreSized view.names) }
    ensures seen { result ≢ Err ClientFault.Unseen }
    ensures stays { R.stays source.old source.new }
    ensures disk_fault { result ≡ Err ClientFault.DiskFault → R.faults source.old < R.faults source.new }
{
    let mut view = before;
    visit_part(alloc, state, records, source, visits, &mut view)?;
    Ok(view)
}

/// Makes the two visits to each file, without a list of them.
fn visit_files(
    alloc: Global,
    state: &PublicState,
    indexed: &IndexedLog,
    files: Walk<'_, FileRow>,
    view: &mut OwnersView,
) -> Result<(), ClientFault>
    requires keys { ArePresent state.now.keys.keys view.old.ring }
    requires sized { AreSized view.old.names }
    ensures visited { OnOk result (LeadsOn state.now (map plain_placed indexed.now) (file_row_visits files.entry) view.old view.new) }
    ensures failed { IfErr result (FailsBy state.now (map plain_placed indexed.now) (file_row_visits files.entry) view.old) }
    ensures keys { OnOk result (ArePresent state.now.keys.keys view.new.ring) }
    ensures sized { OnOk result (AreSized view.new.names) }
    ensures seen { result ≢ Err ClientFault.Unseen }
    ensures no_disk { result ≢ Err ClientFault.DiskFault }
{
    for file in files {
        visit_part(alloc, state, indexed, &mut (), &of_file(file), view)?;
    }
    Ok(())
}

/// Makes all visits of an owner.
fn visit_owned(
    alloc: Global,
    state: &PublicState,
    indexed: &IndexedLog,
    visits: &OwnerVisits,
    files: Walk<'_, FileRow>,
    view: &mut OwnersView,
) -> Result<(), ClientFault>
    requires kinds { AllByRecursion HasItsKind (owner_list visits.now files) }
    requires keys { ArePresent state.now.keys.keys view.old.ring }
    requires sized { AreSized view.old.names }
    ensures visited { OnOk result (LeadsOn state.now (map plain_placed indexed.now) (owner_list visits.now files.entry) view.old view.new) }
    ensures failed { IfErr result (FailsBy state.now (map plain_placed indexed.now) (owner_list visits.now files.entry) view.old) }
    ensures keys { OnOk result (ArePresent state.now.keys.keys view.new.ring) }
    ensures sized { OnOk result (AreSized view.new.names) }
    ensures seen { result ≢ Err ClientFault.Unseen }
    ensures no_disk { result ≢ Err ClientFault.DiskFault }
{
    let names = visits.names.as_slice();
    visit_part(alloc, state, indexed, &mut (), names, view)?;
    visit_files(alloc, state, indexed, files, view)?;
    let keys = visits.keys.as_slice();
    visit_part(alloc, state, indexed, &mut (), keys, view)
}

/// Opens all of a store that the owner's key opens: every key, every name, all bytes, and the
/// holders' keys. Its answer is
/// that of the owner's visits one after another: `Damaged` behind the header where a record is missing, `Tampered` with the
/// place of the first record whose tag is wrong, `Damaged` with the place of the first content whose text has another form.
/// `OutOfMemory` may come at any time, and no disk is touched.
pub fn open_all(
    alloc: Global,
    state: &PublicState,
    log: &[Placed],
    owner: Key<OwnerK>,
) -> Result<OwnersView, ClientFault>
    requires stands { All IsStanding log.now }
    requires owner { IsPresent state.now.keys.keys Owner owner }
    ensures answer { (r : Reading) → IsReadingOf state.now log.now r →
        AnswersBy (λ view behind. IsOpenedBy r.stand.store view behind) result
        (spec.visit_all r (all_visits r.stand.store TheOwner
        ++ writing_visits r.stand.store) (record { keys = (Owner, owner.bytes) ∷ []; store = r.stand.store })) }
    ensures present { IfOk result (λ view. ArePresent state.now.keys.keys view.ring) }
    ensures sized { IfOk result (λ view. AreSized view.names) }
    ensures no_disk { result ≢ Err ClientFault.DiskFault }
{
    let indexed = IndexedLog::of(alloc, state, log)?;
    let visits = owner_visits(alloc, state)?;
    let mut view = OwnersView {
        ring: KeyRing::new(alloc, owner),
        names: OpenedNames::new(alloc),
    };
    let files = state.shape().files();
    visit_owned(alloc, state, &indexed, &visits, files, &mut view)?;
    Ok(view)
}

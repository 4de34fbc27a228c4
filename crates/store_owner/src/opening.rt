//! Opens a store for writing (docs/FORMAT.md, "Opening for writing").
ghost use Rattle.std.specs.Prelude.{◌≡◌, ◌≢◌, ◌⊎◌, ◌<◌, ◌≤◌, All, Err, IfErr, IfOk, OnErr, OnOk, Ok, drop, is_some, length, map};
ghost use Rattle.cry_base.specs.Limits.{most_file_bytes, most_store_bytes};
ghost use Rattle.cry_io.specs.Stops.{IsDurable};
ghost use Rattle.cry_io.specs.Told.{WhereTold, WhereBothTold};
ghost use Rattle.batch_log.specs.Moments.{FromThenOn};
ghost use Rattle.commit_journal.specs.Handing.{HandsOpening};
ghost use Rattle.commit_journal.specs.Holding.{GoesOn};
ghost use Rattle.commit_journal.specs.Logs.{AreInEpochs, epoch_behind};
ghost use Rattle.commit_journal.specs.Moments.{OpensThroughout};
ghost use Rattle.commit_journal.specs.Opening.{IsOpened, LeavesGated, opening_verdict};
ghost use Rattle.commit_journal.specs.Placed.{plain_log, plain_placed};
ghost use Rattle.commit_journal.specs.Places.{IsStanding};
ghost use Rattle.log_visits.specs.Answering.{AnswersBy, IsOfBytes, client_fault};
ghost use Rattle.log_visits.specs.Asking.{open_with, opened_store};
ghost use Rattle.log_visits.specs.Holding.{ArePresent, AreSized};
ghost use Rattle.move_plan.specs.Fitting.{folder_stands};
ghost use Rattle.public_fold.specs.Journal.{Journal as AnyJournal, Stand};
ghost use Rattle.public_fold.specs.Lengths.{end_of};
ghost use Rattle.public_fold.specs.Standing.{IsSeenAs};
ghost use Rattle.journal_bytes.specs.Bytes.{image_of};
ghost use Rattle.journal_bytes.specs.Journals.{HoldsBetween, IsSettled, Kept, StandsForJournal};
ghost use Rattle.store_owner.specs.Opened.{AreContents, GoesOnBehind, IsFilled, IsFresh, LeavesRefused, OpensAs, opened_of, placed_in};
ghost use Rattle.store_owner.specs.Owned.{IsOwnerOf};
ghost use Rattle.store_owner.specs.Published.{PublishesUpTo, StaysPublished};

use crate::counted::NONE;
use crate::owner::Owner;
use chacha_seal::{Key, OwnerK};
use commit_journal::{Journal, OpenFault, Opened, Placed};
use cry_base::{Limits, Mem, ROOT};
use cry_io::Disk;
use folder_nodes::Names;
use key_links::KeyRing;
use log_visits::{BEHIND_HEADER, ClientFault, OwnersView, fold, open_all};
use public_fold::PublicState;
use std::alloc::Global;

/// What was opened of a log: what everyone may see, and what the owner's key opens.
#[derive(Drop)]
struct Contents {
    state: PublicState,
    ring: KeyRing,
    names: Names,
}

fn has_root(state: &PublicState) -> bool
    ensures { (at : Stand) → IsSeenAs state.now at → result ≡ folder_stands at.store 1 }
{
    state.shape().has_folder(ROOT)
}

/// What was opened, with the names put in order to be looked up.
fn contents_of(alloc: Global, state: PublicState, view: OwnersView) -> Mem<Contents>
    ensures state { IfOk result (λ contents. contents.state ≡ state) }
    ensures ring { IfOk result (λ contents. contents.ring ≡ view.ring) }
    ensures folders { IfOk result (λ contents. contents.names.folders ≡ view.names.folders) }
    ensures files { IfOk result (λ contents. contents.names.files ≡ view.names.files) }
{
    let OwnersView { ring, names } = view;
    let names = Names::of(alloc, names)?;
    Ok(Contents { state, ring, names })
}

/// Follows the payloads of a log, looks for the root, and then opens all that the owner's key opens. The first of these that
/// fails ends it.
fn open_contents(alloc: Global, log: &[Placed], owner: Key<OwnerK>) -> Result<Contents, ClientFault>
    requires stands { All IsStanding log.now }
    requires epochs { AreInEpochs 0 (map plain_placed log.now) }
    requires number { owner.id ≡ 0 }
    requires serial { owner.serial ≡ 0 }
    ensures answer { AnswersBy AreContents result (opened_of owner.bytes (map plain_placed log.now)) }
    ensures present { IfOk result (λ contents. ArePresent contents.state.keys.keys contents.ring) }
    ensures sized { IfOk result (λ contents. AreSized contents.names) }
    ensures no_disk { result ≢ Err ClientFault.DiskFault }
{
    let state = fold(alloc, log)?;
    if !has_root(&state) {
        return Err(ClientFault::Damaged { at: BEHIND_HEADER });
    }
    let view = open_all(alloc, &state, log, owner)?;
    let contents = contents_of(alloc, state, view)?;
    Ok(contents)
}

/// The fault of a log or of an owner's visits. Neither is that of a holder or a path.
fn open_fault(fault: ClientFault) -> OpenFault
    requires { IsOfBytes fault }
    ensures { fault ≡ client_fault result }
{
    match fault {
        ClientFault::NotAStore => OpenFault::NotAStore,
        ClientFault::WrongKey => OpenFault::WrongKey,
        ClientFault::Damaged { at } => OpenFault::Damaged { at },
        ClientFault::Tampered { batch, at } => OpenFault::Tampered { batch, at },
        ClientFault::NoHolder { .. } | ClientFault::Unseen => unreachable!(),
        ClientFault::DiskFault => OpenFault::DiskFault,
        ClientFault::OutOfMemory => OpenFault::OutOfMemory,
    }
}

/// Goes on from a log that was opened, with no disk.
fn owner_behind(
    alloc: Global,
    key: [u8; 32],
    opened: Opened,
    limits: Limits,
) -> Result<Owner, OpenFault>
    requires files { limits.file_bytes ≤ most_file_bytes }
    requires opened { IsOpened key limits.store_bytes opened.journal }
    requires stands { All IsStanding opened.placed.items }
    requires epochs { AreInEpochs 0 (plain_log opened.placed) }
    requires count { opened.journal.batches ≡ length opened.placed.items }
    requires last { opened.journal.epoch ≡ epoch_behind 0 (plain_log opened.placed) }
    ensures answer { OpensAs result (open_with key (Ok (plain_log opened.placed))) }
    ensures journal { IfOk result (λ o. o.journal ≡ opened.journal) }
    ensures fresh { IfOk result (IsFresh key limits.store_bytes limits.file_bytes) }
    ensures no_disk { result ≢ Err OpenFault.DiskFault }
{
    let Opened { journal, placed } = opened;
    match open_contents(alloc, placed.as_slice(), Key::owner(key)) {
        Ok(contents) => {
            let Contents { state, ring, names } = contents;
            Ok(Owner::at(key, journal, state, names, ring, limits, NONE))
        }
        Err(fault) => Err(open_fault(fault)),
    }
}

impl Owner {
    /// Opens a store for writing with the owner's key: syncs it, reads its log and writes each slot that a stop left without its
    /// veil key, with a sync; then follows the payloads, looks for the root, and opens every key, name, text and holder's key.
    /// The batches that are read may be unpublished, since a stop left them so. The owner has begun no epoch.
    ///
    /// `NotAStore` and `WrongKey` come of the header. `Damaged` comes behind an open gate where no batch stands that ends
    /// within the store limit, and for a payload that has no form; then for the first payload that doesn't fit what stands
    /// before it, with the place of its first byte; behind the header where no root was made or a record is missing; and for a
    /// text of another form, with the place of its content. `Tampered` comes for a wrong tag, of a batch or of a record, with
    /// its place. The first of these ends the call. `DiskFault` comes only where the disk's faults rose in this call.
    ///
    /// A store that is refused by its header or its log is left as it was, but for the sync. One that is refused by its payloads or
    /// records has its slots filled, and nothing else written. After any fault a journal for which the disk's bytes stood stands
    /// still, and after none is anything else written than slots of batches that passed their tests: the disk is handed their
    /// veil keys and nothing else.
    ///
    /// At each moment of the call the disk shows what it showed, and a stop leaves what it could leave then; or both are the bytes that
    /// were shown at the start with some slots filled, of a log that passes every test.
    ///
    /// A stop at any moment of the call leaves a journal between two, where the disk held between these at its start and showed one
    /// whose log ends within the store limit. It takes back no batch that was published then or at an
    /// earlier moment of the call, where so it was at the start.
    pub fn open_store<D: Disk>(
        alloc: Global,
        disk: &mut D,
        key: [u8; 32],
        limits: Limits,
    ) -> Result<Owner, OpenFault>
        requires known { limits.store_bytes ≤ most_store_bytes }
        requires files { limits.file_bytes ≤ most_file_bytes }
        ensures verdict { WhereTold (D.shown disk.old)
            (λ s. OpensAs result (open_with key (placed_in (opening_verdict limits.store_bytes key s)))) }
        ensures largest { limits.store_bytes ≡ most_store_bytes → WhereTold (D.shown disk.old) (λ s. OpensAs result (opened_store key s)) }
        ensures log { IfOk result (λ o. WhereTold (D.shown disk.old) (GoesOnBehind limits.store_bytes key o)) }
        ensures stands { IfOk result (λ o. (m : AnyJournal) → WhereTold (D.shown disk.old)
            (λ s. StandsForJournal key m s → end_of m ≤ limits.store_bytes → IsOwnerOf m o)) }
        ensures settled { OnOk result ((m : AnyJournal) → WhereTold (D.shown disk.old)
            (λ s. StandsForJournal key m s → end_of m ≤ limits.store_bytes → IsSettled key m (D.shown disk.new) (D.may_leave disk.new))) }
        ensures never { IfErr result (λ fault. (m : AnyJournal)
            → WhereTold (D.shown disk.old) (λ s. StandsForJournal key m s → end_of m ≤ limits.store_bytes
            → (fault ≡ OpenFault.DiskFault) ⊎ (fault ≡ OpenFault.OutOfMemory))) }
        ensures fresh { IfOk result (IsFresh key limits.store_bytes limits.file_bytes) }
        ensures inside { IfOk result (λ o. o.journal.end ≤ D.size_of disk.new) }
        ensures durable { OnOk result (IsDurable (D.may_leave disk.new) (D.shown disk.new)) }
        ensures told { is_some (D.shown disk.new) ≡ is_some (D.shown disk.old) }
        ensures size { D.size_of disk.new ≡ D.size_of disk.old }
        ensures refused { IfErr result (λ fault. (fault ≡ OpenFault.DiskFault)
            ⊎ LeavesRefused D.shown D.size_of D.may_leave limits.store_bytes key disk.old disk.new) }
        ensures interrupted { OnErr result (WhereBothTold (D.shown disk.old) (D.shown disk.new) (LeavesGated limits.store_bytes key)) }
        ensures filled { OnOk result (WhereBothTold (D.shown disk.old) (D.shown disk.new) (IsFilled limits.store_bytes key)) }
        ensures behind { OnOk result ((m : AnyJournal)
            → WhereBothTold (D.shown disk.old) (D.shown disk.new) (λ x y. StandsForJournal key m x →
            end_of m ≤ limits.store_bytes → let end = length (image_of key m) in drop end y ≡ drop end x)) }
        ensures left { OnErr result ((m : AnyJournal) → WhereBothTold (D.shown disk.old) (D.shown disk.new)
            (λ x y. StandsForJournal key m x → end_of m ≤ limits.store_bytes → StandsForJournal key m y)) }
        ensures later { D.moment disk.old ≤ D.moment disk.new }
        ensures time { GoesOn (D.moment disk.old) (D.since disk.old) (D.since disk.new) }
        ensures stops { OpensThroughout limits.store_bytes key (D.shown disk.old) (D.may_leave disk.old)
            (D.since disk.new (D.moment disk.old)) }
        ensures kept { (m m1 m2 : AnyJournal) → HoldsBetween key m1 m2 (D.shown disk.old) (D.may_leave disk.old) →
            WhereTold (D.shown disk.old) (StandsForJournal key m) → end_of m ≤ limits.store_bytes →
            Kept key m1 m2 m2 (D.since disk.new (D.moment disk.old)) }
        ensures hands { HandsOpening limits.store_bytes key (result ≡ Err OpenFault.DiskFault) (D.shown disk.old) (D.shown disk.new)
            (D.since disk.new (D.moment disk.old)) }
        ensures published { (m : AnyJournal) → StaysPublished key (D.shown disk.old) (D.may_leave disk.old) →
            WhereTold (D.shown disk.old) (λ s. StandsForJournal key m s → end_of m ≤ limits.store_bytes →
            PublishesUpTo key m (D.since disk.new (D.moment disk.old)) (FromThenOn D.moment D.since disk.old disk.new)) }
        ensures counts { D.faults disk.old ≤ D.faults disk.new }
        ensures disk_fault { result ≡ Err OpenFault.DiskFault → D.faults disk.old < D.faults disk.new }
    {
        let owner = Key::owner(key);
        let opened = Journal::open_owner(alloc, disk, &owner, limits)?;
        owner_behind(alloc, key, opened, limits)
    }
}

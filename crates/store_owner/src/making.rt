//! Makes a store: all memory, one draw, the root sealed, the store file written, in this order.
ghost use Rattle.std.specs.Prelude.{◌≡◌, ◌≢◌, ◌<◌, ◌≤◌, ◌+◌, ℕ, Err, IfErr, IfOk, None, OnOk, Some, [], ◌∷◌, ◌++◌, is_some};
ghost use Rattle.std.specs.Prelude.{length};
ghost use Rattle.commit_journal.specs.Handing.{Hands};
ghost use Rattle.commit_journal.specs.Holding.{GoesOn};
ghost use Rattle.commit_journal.specs.Image.{image};
ghost use Rattle.commit_journal.specs.Journals.{IsJournalOf};
ghost use Rattle.cry_base.specs.Limits.{most_file_bytes, most_store_bytes};
ghost use Rattle.cry_base.specs.declared.roles.Role.{Role as AnyRole};
ghost use Rattle.cry_base.specs.declared.roles.Role.TheVariants.{Owner as OwnerRole};
ghost use Rattle.cry_io.specs.Counts.{CountsFault};
ghost use Rattle.cry_io.specs.Stops.{IsDurable};
ghost use Rattle.cry_io.specs.Told.{WhereBothTold, WhereTold};
ghost use Rattle.folder_nodes.specs.Titles.{title_at};
ghost use Rattle.key_links.specs.Fresh.{fresh_draw_len, fresh_image, fresh_store_len, root_payload_len};
ghost use Rattle.key_links.specs.Ringed.{key_of};
ghost use Rattle.record_format.specs.Plain.{plain_payload};
ghost use Rattle.record_format.specs.Sizes.{payload_size};
ghost use Rattle.record_format.specs.Spellable.{IsSpellable};
ghost use Rattle.public_fold.specs.Fitted.{told_stand, told_step};
ghost use Rattle.public_fold.specs.Heads.{IsSkeleton};
ghost use Rattle.public_fold.specs.Journal.{keys_of, nothing};
ghost use Rattle.public_fold.specs.Preparing.{CanSettle, HasRoomFor, settled};
ghost use Rattle.public_fold.specs.Standing.{IsSeenAs, with_room_of};
ghost use Rattle.journal_bytes.specs.Keys.{all_keys};
ghost use Rattle.journal_bytes.specs.Sealing.{HoldsKeys, IsSpaceFor};
ghost use Rattle.store_owner.specs.Counted.{root_counted};
ghost use Rattle.store_owner.specs.Drawing.{AreKeys, FillsByCount, joined};
ghost use Rattle.store_owner.specs.Making.{HandsFresh, IsMade, IsMadeJournal, Makes, first_stand, fresh_writes, made_batches, made_note};
ghost use Rattle.store_owner.specs.Making.{made_with, made_writes, root_payload};
ghost use Rattle.store_owner.specs.Owned.{counting, owner_at};
ghost use Rattle.store_owner.specs.Sound.{IsSound};
ghost use Rattle.store_owner.specs.Stopping.{ShowsWritten};

use crate::counted::ROOT;
use crate::key_room::KeyRoom;
use crate::making_laws::makers_own_the_store;
use crate::step_records::seal_step;
use crate::step_room::StepRoom;
use crate::{ApplyFault, Owner};
use chacha_seal::{Counter, Key};
use commit_journal::{CommitFault, Journal};
use cry_base::{Epoch, FolderId, Limits, List, Mem, Node, OutOfMemory, Steps};
use cry_io::{Disk, Source};
use folder_nodes::Names;
use journal_bytes::laws::fresh_journal_has_the_fresh_image;
use key_links::KeyRing;
use public_fold::{Prepared, PublicState, Skeleton};
use record_format::{Note, Payload};
use std::alloc::Global;

const ROOT_PAYLOAD_LEN: u64 = 557;

/// The keys that the ring gets: the owner's, which takes the place of zeros, and the root's.
const KEYS: usize = 6;

const FIRST_EPOCH: Epoch = Epoch(1);

/// What makes the root: a store that is made has version 2.
const ROOT_NOTE: Note = Note::StrictRoot;

/// What an owner keeps before there are keys: a journal of no store, the state before anything was made, no names, and a ring that
/// has zeros in the place of the owner's key.
#[derive(Drop)]
struct Blank {
    journal: Journal,
    state: PublicState,
    names: Names,
    ring: KeyRing,
}

/// A store that is about to be made: the change that makes the root, and all the memory that it takes. Its keys aren't drawn.
#[derive(Drop)]
struct Making {
    blank: Blank,
    ready: Prepared,
    room: StepRoom,
}

impl Blank {
    fn new(alloc: Global, limits: Limits) -> Mem<Blank>
        requires known { limits.store_bytes ≤ most_store_bytes }
        ensures state { IfOk result (λ blank. IsSeenAs blank.state nothing) }
        ensures no_key { IfOk result (λ blank. (role : AnyRole) → role ≢ OwnerRole → key_of blank.ring role ≡ None) }
        ensures limit { IfOk result (λ blank. blank.journal.limit ≡ limits.store_bytes) }
    {
        let state = PublicState::new(alloc)?;
        let journal = Journal::blank(alloc, limits);
        let names = Names::new(alloc);
        let ring = KeyRing::new(alloc, Key::owner([0; 32]));
        Ok(Blank {
            journal,
            state,
            names,
            ring,
        })
    }

    /// Takes the memory for the root's batch behind the first epoch's, its records, its keys and its name.
    fn furnish(&mut self, alloc: Global, ready: &Prepared) -> Mem<StepRoom>
        requires no_key { (role : AnyRole) → role ≢ OwnerRole → key_of self.old.ring role ≡ None }
        ensures no_key { OnOk result ((role : AnyRole) → role ≢ OwnerRole → key_of self.new.ring role ≡ None) }
        ensures limit { OnOk result (self.new.journal.limit ≡ self.old.journal.limit) }
        ensures state { OnOk result (self.new.state ≡ with_room_of self.old.state self.new.state) }
        ensures state_room { OnOk result (HasRoomFor self.new.state ready.now) }
        ensures records_room { IfOk result (λ room. IsSpaceFor room ready.now.skeleton) }
        ensures ring_room { OnOk result (6 ≤ self.new.ring.spare) }
        ensures names_room { OnOk result (1 ≤ self.new.names.spare) }
        ensures journal_room { OnOk result (root_payload_len ≤ self.new.journal.room) }
    {
        self.journal.prepare(ROOT_PAYLOAD_LEN)?;
        self.state.reserve(ready)?;
        self.names.reserve()?;
        self.ring.reserve(KEYS)?;
        StepRoom::reserve(alloc, &mut self.ring, ready.skeleton())
    }

    /// Seals the root under these keys, writes the store onto an empty disk, and keeps what it is then. Want of memory doesn't end it.
    ///
    /// Only `DiskFault` comes, where the disk's faults rose in this call.
    fn write<D: Disk>(
        &mut self,
        alloc: Global,
        disk: &mut D,
        owner: &[u8; 32],
        keys: &[[u8; 32]],
        ready: Prepared,
        room: StepRoom,
    ) -> Result<(), ApplyFault>
        requires blank { D.size_of disk.old ≡ 0 }
        requires skeleton { IsSkeleton (told_step first_stand made_note) ready.skeleton }
        requires can { CanSettle self.old.state ready }
        requires seen { IsSeenAs (settled self.old.state ready) (told_stand first_stand made_note) }
        requires state_room { HasRoomFor self.old.state ready }
        requires no_key { (role : AnyRole) → role ≢ OwnerRole → key_of self.old.ring role ≡ None }
        requires ring_room { 6 ≤ self.old.ring.spare }
        requires records_room { IsSpaceFor room ready.skeleton }
        requires names_room { 1 ≤ self.old.names.spare }
        requires journal_room { root_payload_len ≤ self.old.journal.room }
        requires least { fresh_store_len ≤ self.old.journal.limit }
        requires five { length keys.now ≡ 5 }
        ensures stands { OnOk result (IsJournalOf (made_batches (root_payload owner.now keys.now)) self.new.journal) }
        ensures journal { OnOk result (IsMadeJournal owner.now self.old.journal.limit self.new.journal) }
        ensures seen { OnOk result (IsSeenAs self.new.state (told_stand first_stand made_note)) }
        ensures root { OnOk result (title_at self.new.names.folders 1 ≡ Some (record { id = 1; name = []; bytes = [] })) }
        ensures held { OnOk result (HoldsKeys (all_keys owner.now (made_with keys.now)) (keys_of (made_with keys.now)) self.new.ring
            (counting (keys_of (made_with keys.now)))) }
        ensures shows { OnOk result (WhereTold (D.shown disk.new) (λ s. s
            ≡ image owner.now (made_batches (root_payload owner.now keys.now)) ++ 0 ∷ [])) }
        ensures durable { OnOk result (IsDurable (D.may_leave disk.new) (D.shown disk.new)) }
        ensures size { OnOk result (D.size_of disk.new ≡ fresh_store_len) }
        ensures told { is_some (D.shown disk.new) ≡ is_some (D.shown disk.old) }
        ensures later { D.moment disk.old ≤ D.moment disk.new }
        ensures time { GoesOn (D.moment disk.old) (D.since disk.old) (D.since disk.new) }
        ensures hands { Hands (made_writes owner.now (root_payload owner.now keys.now)) (Unit {0}) (D.shown disk.old) (D.shown disk.new)
            (D.since disk.new (D.moment disk.old)) }
        ensures handed { OnOk result (ShowsWritten (made_writes owner.now (root_payload owner.now keys.now)) (D.shown disk.old)
            (D.shown disk.new)) }
        ensures fault { IfErr result (λ fault. fault ≡ ApplyFault.DiskFault) }
        ensures counts { CountsFault result (D.faults disk.old) (D.faults disk.new) }
    {
        let payload = seal_root(alloc, &mut self.ring, ready.skeleton(), room, owner, keys);
        let Ok(()) = write_store(&mut self.journal, disk, owner, &payload) else {
            return Err(ApplyFault::DiskFault);
        };
        self.state.settle(ready);
        name_root(alloc, &mut self.names);
        Ok(())
    }

    /// The owner of what was written under this key.
    fn into_owner(self, key: [u8; 32], limits: Limits) -> Owner
        requires sound { IsSound (owner_at key self.journal self.state self.names self.ring limits.file_bytes root_counted) }
        requires end { fresh_store_len ≤ self.journal.end }
        ensures { result ≡ owner_at key self.journal self.state self.names self.ring limits.file_bytes root_counted }
    {
        let Blank {
            journal,
            state,
            names,
            ring,
        } = self;
        Owner::at(key, journal, state, names, ring, limits, ROOT)
    }
}

impl Making {
    /// Prepares it, with all its memory but that of the keys.
    fn prepare(alloc: Global, limits: Limits) -> Mem<Making>
        requires known { limits.store_bytes ≤ most_store_bytes }
        ensures skeleton { IfOk result (λ making. IsSkeleton (told_step first_stand made_note) making.ready.skeleton) }
        ensures can { IfOk result (λ making. CanSettle making.blank.state making.ready) }
        ensures seen { IfOk result (λ making. IsSeenAs (settled making.blank.state making.ready) (told_stand first_stand made_note)) }
        ensures state_room { IfOk result (λ making. HasRoomFor making.blank.state making.ready) }
        ensures no_key { IfOk result (λ making. (role : AnyRole) → role ≢ OwnerRole → key_of making.blank.ring role ≡ None) }
        ensures ring_room { IfOk result (λ making. 6 ≤ making.blank.ring.spare) }
        ensures records_room { IfOk result (λ making. IsSpaceFor making.room making.ready.skeleton) }
        ensures names_room { IfOk result (λ making. 1 ≤ making.blank.names.spare) }
        ensures journal_room { IfOk result (λ making. root_payload_len ≤ making.blank.journal.room) }
        ensures limit { IfOk result (λ making. making.blank.journal.limit ≡ limits.store_bytes) }
    {
        let blank = Blank::new(alloc, limits)?;
        let ready = prepared(alloc, &blank.state)?;
        with_room(alloc, blank, ready)
    }
}

/// Takes the memory for a change that is prepared.
fn with_room(alloc: Global, mut blank: Blank, ready: Prepared) -> Mem<Making>
    requires skeleton { IsSkeleton (told_step first_stand made_note) ready.skeleton }
    requires can { CanSettle blank.state ready }
    requires seen { IsSeenAs (settled blank.state ready) (told_stand first_stand made_note) }
    requires no_key { (role : AnyRole) → role ≢ OwnerRole → key_of blank.ring role ≡ None }
    ensures skeleton { IfOk result (λ making. IsSkeleton (told_step first_stand made_note) making.ready.skeleton) }
    ensures can { IfOk result (λ making. CanSettle making.blank.state making.ready) }
    ensures seen { IfOk result (λ making. IsSeenAs (settled making.blank.state making.ready) (told_stand first_stand made_note)) }
    ensures state_room { IfOk result (λ making. HasRoomFor making.blank.state making.ready) }
    ensures no_key { IfOk result (λ making. (role : AnyRole) → role ≢ OwnerRole → key_of making.blank.ring role ≡ None) }
    ensures ring_room { IfOk result (λ making. 6 ≤ making.blank.ring.spare) }
    ensures records_room { IfOk result (λ making. IsSpaceFor making.room making.ready.skeleton) }
    ensures names_room { IfOk result (λ making. 1 ≤ making.blank.names.spare) }
    ensures journal_room { IfOk result (λ making. root_payload_len ≤ making.blank.journal.room) }
    ensures limit { IfOk result (λ making. making.blank.journal.limit ≡ blank.journal.limit) }
{
    let room = blank.furnish(alloc, &ready)?;
    Ok(Making { blank, ready, room })
}

/// Writes the store of six keys that were drawn, the owner's first, and answers its owner. Want of memory doesn't end it.
///
/// Only `DiskFault` comes, where the disk's faults rose in this call.
fn made<D: Disk>(
    making: Making,
    alloc: Global,
    disk: &mut D,
    drawn: &[[u8; 32]],
    limits: Limits,
) -> Result<Owner, ApplyFault>
    requires blank { D.size_of disk.old ≡ 0 }
    requires skeleton { IsSkeleton (told_step first_stand made_note) making.ready.skeleton }
    requires can { CanSettle making.blank.state making.ready }
    requires seen { IsSeenAs (settled making.blank.state making.ready) (told_stand first_stand made_note) }
    requires state_room { HasRoomFor making.blank.state making.ready }
    requires no_key { (role : AnyRole) → role ≢ OwnerRole → key_of making.blank.ring role ≡ None }
    requires ring_room { 6 ≤ making.blank.ring.spare }
    requires records_room { IsSpaceFor making.room making.ready.skeleton }
    requires names_room { 1 ≤ making.blank.names.spare }
    requires journal_room { root_payload_len ≤ making.blank.journal.room }
    requires limit { making.blank.journal.limit ≡ limits.store_bytes }
    requires least { fresh_store_len ≤ limits.store_bytes }
    requires files { limits.file_bytes ≤ most_file_bytes }
    requires six { length drawn.now ≡ 6 }
    requires sizes { AreKeys drawn.now }
    ensures made { IfOk result (IsMade (joined drawn.now) limits) }
    ensures shows { OnOk result (WhereTold (D.shown disk.new) (λ s. s ≡ fresh_image (joined drawn.now))) }
    ensures durable { OnOk result (IsDurable (D.may_leave disk.new) (D.shown disk.new)) }
    ensures size { OnOk result (D.size_of disk.new ≡ fresh_store_len) }
    ensures told { is_some (D.shown disk.new) ≡ is_some (D.shown disk.old) }
    ensures later { D.moment disk.old ≤ D.moment disk.new }
    ensures time { GoesOn (D.moment disk.old) (D.since disk.old) (D.since disk.new) }
    ensures hands { Hands (fresh_writes (joined drawn.now)) (Unit {0}) (D.shown disk.old) (D.shown disk.new)
        (D.since disk.new (D.moment disk.old)) }
    ensures handed { OnOk result (ShowsWritten (fresh_writes (joined drawn.now)) (D.shown disk.old) (D.shown disk.new)) }
    ensures fault { IfErr result (λ fault. fault ≡ ApplyFault.DiskFault) }
    ensures counts { CountsFault result (D.faults disk.old) (D.faults disk.new) }
{
    makers_own_the_store();
    fresh_journal_has_the_fresh_image();
    let Making {
        mut blank,
        ready,
        room,
    } = making;
    let owner = drawn[0];
    let keys = &drawn[1..];
    let Ok(()) = blank.write(alloc, disk, &owner, keys, ready, room) else {
        return Err(ApplyFault::DiskFault);
    };
    Ok(blank.into_owner(owner, limits))
}

impl Owner {
    /// Makes a store on an empty disk, and answers its owner, who has begun no epoch: that which the store is made in doesn't count.
    ///
    /// All memory comes first, or `OutOfMemory`, which leaves source and disk as they were. Then 192 bytes are drawn, the owner's
    /// key and the root's five: `RandomFault` and `RandomShort` leave the disk as it was. `DiskFault` comes only behind the draw, where
    /// the disk's faults rose in this call, and the disk is then to be thrown away. `Closed` never comes. Whatever comes behind the draw,
    /// the disk is handed the header, and the two batches as they are staged, opened and published, and nothing else.
    pub fn make<D: Disk, R: Source>(
        alloc: Global,
        disk: &mut D,
        random: &mut R,
        limits: Limits,
    ) -> Result<Owner, ApplyFault>
        requires blank { D.size_of disk.old ≡ 0 }
        requires least { fresh_store_len ≤ limits.store_bytes }
        requires known { limits.store_bytes ≤ most_store_bytes }
        requires files { limits.file_bytes ≤ most_file_bytes }
        ensures made { IfOk result (Makes limits (R.left random.old) (R.left random.new) (D.shown disk.old) (D.shown disk.new)
            (D.since disk.new (D.moment disk.old))) }
        ensures durable { OnOk result (IsDurable (D.may_leave disk.new) (D.shown disk.new)) }
        ensures size { OnOk result (D.size_of disk.new ≡ fresh_store_len) }
        ensures inside { IfOk result (λ o. o.journal.end ≤ D.size_of disk.new) }
        ensures short { (left need : ℕ) → result ≡ Err (ApplyFault.RandomShort left need) →
            (need ≡ fresh_draw_len) × (left < fresh_draw_len)
            × WhereBothTold (R.left random.old) (R.left random.new) (λ before after. (length before ≡ left) × (after ≡ [])) }
        ensures drew { result ≡ Err ApplyFault.DiskFault
            → WhereBothTold (R.left random.old) (R.left random.new) (λ before after. length before ≡ fresh_draw_len + length after) }
        ensures cut_short { result ≡ Err ApplyFault.DiskFault → HandsFresh ⊥ (R.left random.old) (R.left random.new)
            (D.shown disk.old) (D.shown disk.new) (D.since disk.new (D.moment disk.old)) }
        ensures not_closed { result ≢ Err ApplyFault.Closed }
        ensures no_memory { result ≡ Err ApplyFault.OutOfMemory → (random.new ≡ random.old) × (disk.new ≡ disk.old) }
        ensures untouched { IfErr result (λ fault. fault ≢ ApplyFault.DiskFault → disk.new ≡ disk.old) }
        ensures later { D.moment disk.old ≤ D.moment disk.new }
        ensures time { GoesOn (D.moment disk.old) (D.since disk.old) (D.since disk.new) }
        ensures disk_told { is_some (D.shown disk.new) ≡ is_some (D.shown disk.old) }
        ensures source_told { is_some (R.left random.new) ≡ is_some (R.left random.old) }
        ensures disk_counts { D.faults disk.old ≤ D.faults disk.new }
        ensures disk_fault { result ≡ Err ApplyFault.DiskFault → D.faults disk.old < D.faults disk.new }
        ensures source_counts { FillsByCount result (R.faults random.old) (R.faults random.new) }
    {
        let Ok(making) = Making::prepare(alloc, limits) else {
            return Err(ApplyFault::OutOfMemory);
        };
        let Ok(keys) = KeyRoom::reserve(alloc, KEYS) else {
            return Err(ApplyFault::OutOfMemory);
        };
        let drawn = match keys.fill(random) {
            Ok(drawn) => drawn,
            Err(fault) => return Err(fault),
        };
        made(making, alloc, disk, drawn.as_slice(), limits)
    }
}

/// The change that makes the root, once the first epoch was begun.
#[tactic(auto, unfolding(record_format::specs::Told::told_note, public_fold::specs::Journal::nothing, public_fold::specs::KeyStep::no_keys))]
fn prepared(alloc: Global, state: &PublicState) -> Mem<Prepared>
    requires { IsSeenAs state.now nothing }
    ensures skeleton { IfOk result (λ ready. IsSkeleton (told_step first_stand made_note) ready.skeleton) }
    ensures can { IfOk result (CanSettle state.now) }
    ensures after { IfOk result (λ ready. IsSeenAs (settled state.now ready) (told_stand first_stand made_note)) }
{
    let Ok(ready) = state.prepare(alloc, &ROOT_NOTE, true, &mut Steps::new()) else {
        return Err(OutOfMemory);
    };
    Ok(ready)
}

/// The payload that makes the root. The ring then has the owner's key and the root's, which are drawn in the skeleton's order.
fn seal_root(
    alloc: Global,
    ring: &mut KeyRing,
    skeleton: &Skeleton,
    room: StepRoom,
    owner: &[u8; 32],
    keys: &[[u8; 32]],
) -> Payload
    requires no_key { (role : AnyRole) → role ≢ OwnerRole → key_of ring.old role ≡ None }
    requires ring_room { 6 ≤ ring.old.spare }
    requires skeleton { IsSkeleton (told_step first_stand made_note) skeleton.now }
    requires records_room { IsSpaceFor room skeleton.now }
    requires five { length keys.now ≡ 5 }
    ensures payload { plain_payload result ≡ root_payload owner.now keys.now }
    ensures spellable { IsSpellable (plain_payload result) }
    ensures size { payload_size (plain_payload result) ≡ root_payload_len }
    ensures held { HoldsKeys (all_keys owner.now (made_with keys.now)) (keys_of (made_with keys.now)) ring.new
        (counting (keys_of (made_with keys.now))) }
{
    ring.adopt_owner(Key::owner(*owner));
    let mut counter = Counter::new(FIRST_EPOCH);
    let name = List::new(alloc);
    let payload = seal_step(ring, &mut counter, ROOT_NOTE, skeleton, keys, name, room);
    payload
}

/// Writes the store file of the root's payload onto an empty disk, and ends the session. Want of memory doesn't end it.
///
/// `DiskFault` comes only where the disk's faults rose in this call; the disk is then to be thrown away. Another fault never comes.
fn write_store<D: Disk>(
    journal: &mut Journal,
    disk: &mut D,
    owner: &[u8; 32],
    payload: &Payload,
) -> Result<(), CommitFault>
    requires blank { D.size_of disk.old ≡ 0 }
    requires room { root_payload_len ≤ journal.old.room }
    requires least { fresh_store_len ≤ journal.old.limit }
    requires spellable { IsSpellable (plain_payload payload.now) }
    requires size { payload_size (plain_payload payload.now) ≡ root_payload_len }
    ensures stands { OnOk result (IsJournalOf (made_batches (plain_payload payload.now)) journal.new) }
    ensures state { OnOk result (IsMadeJournal owner.now journal.old.limit journal.new) }
    ensures shows { OnOk result (WhereTold (D.shown disk.new) (λ s. s ≡ image owner.now (made_batches (plain_payload payload.now)) ++ 0
        ∷ [])) }
    ensures durable { OnOk result (IsDurable (D.may_leave disk.new) (D.shown disk.new)) }
    ensures size { OnOk result (D.size_of disk.new ≡ fresh_store_len) }
    ensures told { is_some (D.shown disk.new) ≡ is_some (D.shown disk.old) }
    ensures later { D.moment disk.old ≤ D.moment disk.new }
    ensures time { GoesOn (D.moment disk.old) (D.since disk.old) (D.since disk.new) }
    ensures hands { Hands (made_writes owner.now (plain_payload payload.now)) (Unit {0}) (D.shown disk.old) (D.shown disk.new)
        (D.since disk.new (D.moment disk.old)) }
    ensures handed { OnOk result (ShowsWritten (made_writes owner.now (plain_payload payload.now)) (D.shown disk.old) (D.shown disk.new)) }
    ensures fault { IfErr result (λ fault. fault ≡ CommitFault.DiskFault) }
    ensures counts { CountsFault result (D.faults disk.old) (D.faults disk.new) }
{
    journal.found(disk, &Key::owner(*owner))?;
    journal.begin_epoch(disk)?;
    journal.commit(disk, payload)?;
    journal.end_session();
    Ok(())
}

/// Gives the root its empty name.
fn name_root(alloc: Global, names: &mut Names)
    requires room { 1 ≤ names.old.spare }
    ensures { title_at names.new.folders 1 ≡ Some (record { id = 1; name = []; bytes = [] }) }
{
    let name = List::new(alloc);
    let bytes = List::new(alloc);
    names.set(Node::Folder(FolderId(1)), name, bytes);
}

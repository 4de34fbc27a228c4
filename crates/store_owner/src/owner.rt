//! The owner of a store, and what the owner's commands do to it.
ghost use Rattle.std.specs.Prelude.{◌≡◌, ◌≢◌, ◌<◌, ◌≤◌, ◌+◌, ◌↔◌, ℕ, [], ◌∷◌, None, Some, Err, IfErr, IfOk, IsTrue, OnErr, OnOk};
ghost use Rattle.std.specs.Prelude.{false, is_some, length, replicate};
ghost use Rattle.batch_log.specs.Moments.{FromThenOn};
ghost use Rattle.commit_journal.specs.Holding.{GoesOn};
ghost use Rattle.commit_journal.specs.Journals.{IsBehind, Joins, next_command, MayJoin, next_epoch};
ghost use Rattle.commit_journal.specs.Stopping.{KeepsPublished};
ghost use Rattle.cry_base.specs.Layout.{batch_len};
ghost use Rattle.cry_base.specs.Refusing.{has_bad_name, refusal_in};
ghost use Rattle.cry_base.specs.Requests.{request_of};
ghost use Rattle.cry_base.specs.Store.{Store};
ghost use Rattle.cry_io.specs.Counts.{CountsFault};
ghost use Rattle.cry_io.specs.Stops.{IsDurable};
ghost use Rattle.command_plan.specs.Targeted.{HasShortName};
ghost use Rattle.record_format.specs.Noted.Note.{Upgrade};
ghost use Rattle.store_owner.specs.Deeds.{deed_note, deed_of, deed_refusal, IsFound, IsWellNamed, Suits};
ghost use Rattle.store_owner.specs.Deeds.Deed.{Commanded, Upgrading};
ghost use Rattle.folder_nodes.specs.Targets.{IsTargetOf, why_of};
ghost use Rattle.folder_nodes.specs.Titles.{tree_store};
ghost use Rattle.record_format.specs.Plain.{plain_payload};
ghost use Rattle.record_format.specs.Sizes.{payload_size};
ghost use Rattle.record_format.specs.Spellable.{IsSpellable};
ghost use Rattle.record_format.specs.Spelling.{spell_payload};
ghost use Rattle.public_fold.specs.Journal.{Journal as AnyJournal};
ghost use Rattle.public_fold.specs.KeyStep.{is_strict};
ghost use Rattle.public_fold.specs.LookUps.{note_look_ups};
ghost use Rattle.public_fold.specs.Preparing.{HasRoomFor};
ghost use Rattle.journal_bytes.specs.Owning.{IsStoreOf};
ghost use Rattle.journal_bytes.specs.Sealing.{IsSpaceFor};
ghost use Rattle.store_owner.specs.Acting.{Acts};
ghost use Rattle.store_owner.specs.Applying.{Answers, DiskCounts, HasOtherRoom, IsCarriedOut, IsDoneThen, IsInterrupted, IsKeptBy};
ghost use Rattle.store_owner.specs.Applying.{UnlessDiskFault};
ghost use Rattle.store_owner.specs.Counted.{IsWithin, counted_with};
ghost use Rattle.store_owner.specs.Drawing.{AreKeys, FillsByCount};
ghost use Rattle.store_owner.specs.Owned.{IsOwnerOf, owner_at};
ghost use Rattle.store_owner.specs.Planning.{AnswersPlan, HasBegun, IsDrafted, IsFurnished, IsUnfit, reply_for};
ghost use Rattle.store_owner.specs.Published.{AddsPublished, PublishesOn, PublishesWithin};
ghost use Rattle.store_owner.specs.Sound.{IsSound, granted_in, own_store};
ghost use Rattle.store_owner.specs.Stopping.{AddsBatches, HandsAll, HasAdded, StopsWithin, epoch_due};
ghost use Rattle.store_owner.specs.Taking.{FallsShort, TakesKeys};
ghost use Rattle.store_owner.specs.Tallied.{CountsCommand, tally_in};

use crate::ApplyFault;
use crate::apply_laws::{
    commands_are_measured, interrupted_commands_leave_a_journal, owners_go_on,
};
use crate::asked::Asked;
use crate::change::Change;
use crate::counted::Counted;
use crate::deed_laws::deeds_leave_the_titles;
use crate::key_room::KeyRoom;
use crate::owner_laws::owners_keep_the_store;
use crate::sound_laws::{
    carried_out_owners_stay_sound, sound_owners_can_seal, sound_owners_draw_few_keys,
    sound_owners_keep_a_store,
};
use crate::step_records::seal_step;
use crate::step_room::StepRoom;
use crate::stopping_laws::disk_stands_still;
use crate::tally::Tally;
use chacha_seal::{Counter, Key, OwnerK};
use command_plan::{change_names, resolve, size_of};
use commit_journal::{CommitFault, Journal};
use cry_base::{Command, Limits, Mem, OutOfMemory, Refusal, Reply, Steps};
use cry_io::{Disk, Source};
use folder_nodes::{Names, Shape, Target};
use grant_book::Grants;
use key_links::KeyRing;
use public_fold::{FoldFault, PublicState};
use record_format::Payload;
use std::alloc::Global;
use std::marker::Model;

/// A store that is open for writing. Contracts see what it keeps; as long as no disk fault closed it, that is sound.
#[derive(Drop)]
pub struct Owner {
    key: Key<OwnerK>,
    journal: Journal,
    state: PublicState,
    names: Names,
    ring: KeyRing,
    counter: Option<Counter>,
    limits: Limits,
    tally: Counted,
}

impl Model for Owner {
    ghost use Rattle.std.specs.Prelude.{◌≡◌, false};
    ghost use Rattle.store_owner.specs.Counted.{IsWithin};
    ghost use Rattle.store_owner.specs.Owned.{OwnerView};
    ghost use Rattle.store_owner.specs.Sound.{IsSound};

    ghost Value = { OwnerView };

    ghost view = { λ o. record {
      key = o.key.bytes;
      journal = o.journal;
      state = o.state;
      names = o.names;
      ring = o.ring;
      counter = o.counter;
      file_bytes = o.limits.file_bytes;
      tally = o.tally;
    } };

    ghost invariant = { λ o. o.journal.is_closed ≡ false → IsSound (record {
      key = o.key.bytes;
      journal = o.journal;
      state = o.state;
      names = o.names;
      ring = o.ring;
      counter = o.counter;
      file_bytes = o.limits.file_bytes;
      tally = o.tally;
    }) × IsWithin o.tally o.journal.end };
}

/// What becomes of what is asked, where the store itself doesn't refuse it.
#[derive(Drop)]
enum Verdict {
    /// It is planned, with its memory.
    Planned(Change, StepRoom),
    /// The store is too full for it.
    Full,
}

impl Owner {
    /// The owner of what was made or opened. It has begun no epoch.
    pub(crate) fn at(
        key: [u8; 32],
        journal: Journal,
        state: PublicState,
        names: Names,
        ring: KeyRing,
        limits: Limits,
        tally: Counted,
    ) -> Owner
        requires sound { IsSound (owner_at key journal state names ring limits.file_bytes tally) }
        requires within { IsWithin tally journal.end }
        ensures { result ≡ owner_at key journal state names ring limits.file_bytes tally }
    {
        Owner {
            key: Key::owner(key),
            journal,
            state,
            names,
            ring,
            counter: None,
            limits,
            tally,
        }
    }

    /// The 32 bytes of the owner's key.
    pub fn key(&self) -> &[u8; 32]
        ensures { result.now ≡ self.now.key }
    {
        self.key.bytes()
    }

    /// The place where the store's log ends, in bytes: a command asks that the disk has as many at least, unless an earlier
    /// fault of the disk closed this owner.
    pub fn end(&self) -> u64
        ensures { result ≡ self.now.journal.end }
    {
        self.journal.end()
    }

    /// Whether a fault of the disk closed this owner: it does nothing more.
    pub fn is_closed(&self) -> bool
        ensures { result ≡ self.now.journal.is_closed }
    {
        self.journal.is_closed()
    }

    /// The version of the store.
    pub fn version(&self) -> u8
        ensures { result ≡ self.now.state.keys.version }
    {
        self.state.version()
    }

    /// The folders and the files.
    pub fn shape(&self) -> &Shape
        ensures { result.now.tree ≡ self.now.state.tree }
    {
        self.state.shape()
    }

    /// The names of the folders and the files, and the files' bytes.
    pub fn names(&self) -> &Names
        ensures { result.now ≡ self.now.names }
    {
        &self.names
    }

    /// The holders, each with the check of its key, and the grants.
    pub fn grants(&self) -> &Grants
        ensures checks { result.now.checks ≡ self.now.state.checks }
        ensures pairs { result.now.pairs ≡ self.now.state.pairs }
    {
        self.state.grants()
    }

    /// Law: an owner who is open has a number left for one holder more.
    pub fn numbers_are_left(&self)
        requires open { self.now.journal.is_closed ≡ false }
        ensures { length self.now.state.checks < 4294967295 }
    {
        sound_owners_keep_a_store();
        self.journal.journal_is_within();
    }

    /// What this owner accepted and published since it made or opened the store, and where the store stands. It takes no memory.
    pub fn tally(&self) -> Tally
        ensures { result ≡ tally_in self.now }
    {
        let dirty = self.state.dirty().as_slice().len();
        Tally {
            commands: self.tally.commands,
            links: self.tally.links,
            contents: self.tally.contents,
            dirty: dirty as u64,
            bytes: self.journal.end(),
        }
    }

    /// Does a command, or refuses it.
    ///
    /// In this order: a closed owner answers `Closed`; a refused command changes nothing; all memory is taken, or `OutOfMemory`
    /// comes; the keys are drawn, or `RandomFault` or `RandomShort` comes; and the command is committed, behind the session's
    /// epoch where it has none yet. Until then the owner is as it was, but for room. `DiskFault` closes this owner: the command
    /// may then stand in the store or not, and all before it stands. After any other answer nothing is pending on a disk where
    /// nothing was before. `RandomShort` comes only where the source has ended, and its numbers are exact: `need` is 32 bytes for
    /// each key that the command draws.
    ///
    /// Of a disk that rests at the owner's journal, a stop at any moment of the call leaves bytes that stand for this journal, for it with
    /// the session begun, or for it with the command too. After any answer but `DiskFault` the disk rests again: with the command where
    /// it was done, and else as before. No stop takes back a batch that was published when it came, or at an earlier moment of the call.
    pub fn apply<D: Disk, R: Source>(
        &mut self,
        alloc: Global,
        disk: &mut D,
        random: &mut R,
        command: &Command,
        steps: &mut Steps,
    ) -> Result<Reply, ApplyFault>
        requires inside { self.old.journal.is_closed ≡ false → self.old.journal.end ≤ D.size_of disk.old }
        ensures answers { (m : AnyJournal) → IsOwnerOf m self.old → Answers result m (Commanded (request_of command.now)) self.old self.new
            (R.left random.old) (R.left random.new) (D.shown disk.old) (D.shown disk.new)
            (D.may_leave disk.old) (D.may_leave disk.new) (D.since disk.new (D.moment disk.old)) }
        ensures acts { Acts result (Commanded (request_of command.now)) self.old self.new (R.left random.old) (R.left random.new)
            (D.shown disk.old) (D.shown disk.new) }
        ensures published { PublishesOn self.old (D.shown disk.old) (D.may_leave disk.old)
            (FromThenOn D.moment D.since disk.old disk.new) }
        ensures later { D.moment disk.old ≤ D.moment disk.new }
        ensures time { GoesOn (D.moment disk.old) (D.since disk.old) (D.since disk.new) }
        ensures closed { (result ≡ Err ApplyFault.Closed) ↔ IsTrue self.old.journal.is_closed }
        ensures open { UnlessDiskFault result (self.new.journal.is_closed ≡ self.old.journal.is_closed) }
        ensures kept { IsKeptBy result self.old self.new random.old random.new disk.old disk.new }
        ensures durable { IsDoneThen result (IsDurable (D.may_leave disk.new) (D.shown disk.new)) }
        ensures calm { IsDurable (D.may_leave disk.old) (D.shown disk.old)
            → UnlessDiskFault result (IsDurable (D.may_leave disk.new) (D.shown disk.new)) }
        ensures inside { self.old.journal.end ≤ D.size_of disk.old → UnlessDiskFault result (self.new.journal.end ≤ D.size_of disk.new) }
        ensures counts { CountsCommand result (Commanded (request_of command.now)) self.old self.new }
        ensures key { self.new.key ≡ self.old.key }
        ensures limit { UnlessDiskFault result (self.new.journal.limit ≡ self.old.journal.limit) }
        ensures file_bytes { self.new.file_bytes ≡ self.old.file_bytes }
        ensures disk_told { is_some (D.shown disk.new) ≡ is_some (D.shown disk.old) }
        ensures source_told { is_some (R.left random.new) ≡ is_some (R.left random.old) }
        ensures disk_counts { DiskCounts result (D.faults disk.old) (D.faults disk.new) }
        ensures source_counts { FillsByCount result (R.faults random.old) (R.faults random.new) }
        ensures draws { OnOk result (TakesKeys (R.left random.old) (R.left random.new)) }
        ensures short { (left need : ℕ) → result ≡ Err (ApplyFault.RandomShort left need) →
            FallsShort self.old (Commanded (request_of command.now)) left need (R.left random.old) (R.left random.new) }
        ensures look_ups { (s : Store) → IsStoreOf self.old.state.tree self.old.names (granted_in self.old) s → steps.new
            ≤ steps.old + note_look_ups self.old.state (deed_note s (Commanded (request_of command.now)) (replicate 32 0)) }
    {
        owners_keep_the_store();
        sound_owners_keep_a_store();
        disk_stands_still(disk);
        if self.journal.is_closed() {
            return Err(ApplyFault::Closed);
        }
        let target = match self.resolved(command) {
            Ok(target) => target,
            Err(why) => return Ok(Reply::Refused { why }),
        };
        let asked = Asked::Command { command, target };
        self.perform(alloc, disk, random, &asked, steps)
    }

    /// Makes a store of version 1 one of version 2, or refuses it where it is too full.
    ///
    /// All is as in `apply`: the order, the faults and what they leave, stops, what is published and what is drawn. It counts for no
    /// command.
    pub fn upgrade<D: Disk, R: Source>(
        &mut self,
        alloc: Global,
        disk: &mut D,
        random: &mut R,
        steps: &mut Steps,
    ) -> Result<Reply, ApplyFault>
        requires version { self.old.state.keys.version ≡ 1 }
        requires inside { self.old.journal.is_closed ≡ false → self.old.journal.end ≤ D.size_of disk.old }
        ensures answers { (m : AnyJournal) → IsOwnerOf m self.old → Answers result m Upgrading self.old self.new
            (R.left random.old) (R.left random.new) (D.shown disk.old) (D.shown disk.new)
            (D.may_leave disk.old) (D.may_leave disk.new) (D.since disk.new (D.moment disk.old)) }
        ensures acts { Acts result Upgrading self.old self.new (R.left random.old) (R.left random.new)
            (D.shown disk.old) (D.shown disk.new) }
        ensures published { PublishesOn self.old (D.shown disk.old) (D.may_leave disk.old)
            (FromThenOn D.moment D.since disk.old disk.new) }
        ensures later { D.moment disk.old ≤ D.moment disk.new }
        ensures time { GoesOn (D.moment disk.old) (D.since disk.old) (D.since disk.new) }
        ensures closed { (result ≡ Err ApplyFault.Closed) ↔ IsTrue self.old.journal.is_closed }
        ensures open { UnlessDiskFault result (self.new.journal.is_closed ≡ self.old.journal.is_closed) }
        ensures kept { IsKeptBy result self.old self.new random.old random.new disk.old disk.new }
        ensures durable { IsDoneThen result (IsDurable (D.may_leave disk.new) (D.shown disk.new)) }
        ensures calm { IsDurable (D.may_leave disk.old) (D.shown disk.old)
            → UnlessDiskFault result (IsDurable (D.may_leave disk.new) (D.shown disk.new)) }
        ensures inside { self.old.journal.end ≤ D.size_of disk.old → UnlessDiskFault result (self.new.journal.end ≤ D.size_of disk.new) }
        ensures counts { CountsCommand result Upgrading self.old self.new }
        ensures key { self.new.key ≡ self.old.key }
        ensures limit { UnlessDiskFault result (self.new.journal.limit ≡ self.old.journal.limit) }
        ensures file_bytes { self.new.file_bytes ≡ self.old.file_bytes }
        ensures disk_told { is_some (D.shown disk.new) ≡ is_some (D.shown disk.old) }
        ensures source_told { is_some (R.left random.new) ≡ is_some (R.left random.old) }
        ensures disk_counts { DiskCounts result (D.faults disk.old) (D.faults disk.new) }
        ensures source_counts { FillsByCount result (R.faults random.old) (R.faults random.new) }
        ensures draws { OnOk result (TakesKeys (R.left random.old) (R.left random.new)) }
        ensures short { (left need : ℕ) → result ≡ Err (ApplyFault.RandomShort left need) →
            FallsShort self.old Upgrading left need (R.left random.old) (R.left random.new) }
        ensures look_ups { steps.new ≤ steps.old + note_look_ups self.old.state Upgrade }
    {
        sound_owners_keep_a_store();
        disk_stands_still(disk);
        if self.journal.is_closed() {
            return Err(ApplyFault::Closed);
        }
        self.perform(alloc, disk, random, &Asked::Upgrade, steps)
    }

    /// Plans what is asked, which the store itself doesn't refuse, draws its keys, and carries it out.
    fn perform<D: Disk, R: Source>(
        &mut self,
        alloc: Global,
        disk: &mut D,
        random: &mut R,
        asked: &Asked<'_>,
        steps: &mut Steps,
    ) -> Result<Reply, ApplyFault>
        requires open { self.old.journal.is_closed ≡ false }
        requires inside { self.old.journal.end ≤ D.size_of disk.old }
        requires found { IsFound (tree_store self.old.state.tree self.old.names) asked.now }
        requires form { IsWellNamed (deed_of asked.now) }
        requires accepted { (s : Store) → IsStoreOf self.old.state.tree self.old.names (granted_in self.old) s
            → deed_refusal (is_strict self.old.state.keys) s (deed_of asked.now) self.old.file_bytes ≡ None }
        requires suits { Suits self.old.state.keys (deed_of asked.now) }
        ensures answers { (m : AnyJournal) → IsOwnerOf m self.old → Answers result m (deed_of asked.now) self.old self.new
            (R.left random.old) (R.left random.new) (D.shown disk.old) (D.shown disk.new)
            (D.may_leave disk.old) (D.may_leave disk.new) (D.since disk.new (D.moment disk.old)) }
        ensures acts { Acts result (deed_of asked.now) self.old self.new (R.left random.old) (R.left random.new)
            (D.shown disk.old) (D.shown disk.new) }
        ensures published { PublishesOn self.old (D.shown disk.old) (D.may_leave disk.old)
            (FromThenOn D.moment D.since disk.old disk.new) }
        ensures later { D.moment disk.old ≤ D.moment disk.new }
        ensures time { GoesOn (D.moment disk.old) (D.since disk.old) (D.since disk.new) }
        ensures closed { result ≢ Err ApplyFault.Closed }
        ensures open { UnlessDiskFault result (self.new.journal.is_closed ≡ self.old.journal.is_closed) }
        ensures kept { IsKeptBy result self.old self.new random.old random.new disk.old disk.new }
        ensures durable { IsDoneThen result (IsDurable (D.may_leave disk.new) (D.shown disk.new)) }
        ensures calm { IsDurable (D.may_leave disk.old) (D.shown disk.old)
            → UnlessDiskFault result (IsDurable (D.may_leave disk.new) (D.shown disk.new)) }
        ensures inside { self.old.journal.end ≤ D.size_of disk.old → UnlessDiskFault result (self.new.journal.end ≤ D.size_of disk.new) }
        ensures counts { CountsCommand result (deed_of asked.now) self.old self.new }
        ensures key { self.new.key ≡ self.old.key }
        ensures limit { UnlessDiskFault result (self.new.journal.limit ≡ self.old.journal.limit) }
        ensures file_bytes { self.new.file_bytes ≡ self.old.file_bytes }
        ensures disk_told { is_some (D.shown disk.new) ≡ is_some (D.shown disk.old) }
        ensures source_told { is_some (R.left random.new) ≡ is_some (R.left random.old) }
        ensures disk_counts { DiskCounts result (D.faults disk.old) (D.faults disk.new) }
        ensures source_counts { FillsByCount result (R.faults random.old) (R.faults random.new) }
        ensures draws { OnOk result (TakesKeys (R.left random.old) (R.left random.new)) }
        ensures short { (left need : ℕ) → result ≡ Err (ApplyFault.RandomShort left need) →
            FallsShort self.old (deed_of asked.now) left need (R.left random.old) (R.left random.new) }
        ensures look_ups { (s : Store) → IsStoreOf self.old.state.tree self.old.names (granted_in self.old) s → steps.new
            ≤ steps.old + note_look_ups self.old.state (deed_note s (deed_of asked.now) (replicate 32 0)) }
    {
        commands_are_measured();
        interrupted_commands_leave_a_journal();
        owners_keep_the_store();
        owners_go_on();
        sound_owners_keep_a_store();
        sound_owners_draw_few_keys();
        disk_stands_still(disk);
        self.journal.journal_is_within();
        let (change, room) = match self.plan(alloc, asked, steps) {
            Ok(Verdict::Planned(change, room)) => (change, room),
            Ok(Verdict::Full) => return Ok(Reply::Refused { why: Refusal::Full }),
            Err(OutOfMemory) => return Err(ApplyFault::OutOfMemory),
        };
        let count = change.ready.skeleton().keys.as_slice().len();
        let Ok(keys) = KeyRoom::reserve(alloc, count) else {
            return Err(ApplyFault::OutOfMemory);
        };
        let drawn = match keys.fill(random) {
            Ok(drawn) => drawn,
            Err(fault) => return Err(fault),
        };
        self.carry_out(disk, asked, change, room, drawn.as_slice())
    }

    /// What the command finds, or why the store itself refuses it.
    fn resolved<'a>(&self, command: &'a Command) -> Result<Target<'a>, Refusal>
        requires open { self.now.journal.is_closed ≡ false }
        ensures cause { (s : Store) → IsStoreOf self.now.state.tree self.now.names (granted_in self.now) s
            → why_of result ≡ refusal_in (is_strict self.now.state.keys) s (request_of command.now) self.now.file_bytes }
        ensures form { IfOk result (λ target. has_bad_name (request_of command.now) ≡ false) }
        ensures found { IfOk result (IsTargetOf (tree_store self.now.state.tree self.now.names) (request_of command.now)) }
        ensures short { IfOk result HasShortName }
    {
        sound_owners_keep_a_store();
        self.journal.journal_is_within();
        resolve(
            self.state.shape(),
            &self.names,
            self.state.grants(),
            self.limits,
            self.is_strict(),
            command,
        )
    }

    /// Whether the store has version 2.
    #[tactic(auto, unfolding(public_fold::specs::KeyStep::is_strict))]
    fn is_strict(&self) -> bool
        ensures { result ≡ is_strict self.now.state.keys }
    {
        self.state.version() == 2
    }

    /// What is sealed and changed for what is asked. `Unfit` comes only where its note doesn't fit.
    fn draft(
        &self,
        alloc: Global,
        asked: &Asked<'_>,
        steps: &mut Steps,
    ) -> Result<Change, FoldFault>
        requires open { self.now.journal.is_closed ≡ false }
        requires found { IsFound (tree_store self.now.state.tree self.now.names) asked.now }
        ensures drafted { IfOk result (IsDrafted (deed_of asked.now) self.now) }
        ensures unfit { result ≡ Err FoldFault.Unfit → IsUnfit (deed_of asked.now) self.now }
        ensures look_ups { (s : Store) → IsStoreOf self.now.state.tree self.now.names (granted_in self.now) s → steps.new
            ≤ steps.old + note_look_ups self.now.state (deed_note s (deed_of asked.now) (replicate 32 0)) }
    {
        sound_owners_keep_a_store();
        self.journal.journal_is_within();
        let shape = self.state.shape();
        let note = asked.note(shape, self.state.grants());
        let begins = !self.journal.has_epoch();
        let ready = self.state.prepare(alloc, &note, begins, steps)?;
        let Ok(text) = asked.text(alloc, &self.names) else {
            return Err(FoldFault::OutOfMemory);
        };
        let Ok(titles) = asked.titles(alloc, shape, &self.names) else {
            return Err(FoldFault::OutOfMemory);
        };
        Ok(Change {
            note,
            ready,
            text,
            titles,
        })
    }

    /// Plans what is asked, with all the memory that it takes, or finds that the store is too full for it. For want of memory the owner has
    /// at most other room.
    fn plan(&mut self, alloc: Global, asked: &Asked<'_>, steps: &mut Steps) -> Mem<Verdict>
        requires open { self.old.journal.is_closed ≡ false }
        requires found { IsFound (tree_store self.old.state.tree self.old.names) asked.now }
        requires accepted { (s : Store) → IsStoreOf self.old.state.tree self.old.names (granted_in self.old) s
            → deed_refusal (is_strict self.old.state.keys) s (deed_of asked.now) self.old.file_bytes ≡ None }
        requires suits { Suits self.old.state.keys (deed_of asked.now) }
        ensures room { HasOtherRoom self.old self.new }
        ensures answers { AnswersPlan result (deed_of asked.now) self.old self.new }
        ensures look_ups { (s : Store) → IsStoreOf self.old.state.tree self.old.names (granted_in self.old) s → steps.new
            ≤ steps.old + note_look_ups self.old.state (deed_note s (deed_of asked.now) (replicate 32 0)) }
    {
        commands_are_measured();
        owners_keep_the_store();
        sound_owners_keep_a_store();
        self.journal.journal_is_within();
        let change = match self.draft(alloc, asked, steps) {
            Ok(change) => change,
            Err(FoldFault::Unfit) => return Ok(Verdict::Full),
            Err(FoldFault::OutOfMemory) => return Err(OutOfMemory),
        };
        let text = asked.sealed_len(&change.text);
        let Some(size) = size_of(&change.note, change.ready.skeleton(), text) else {
            return Ok(Verdict::Full);
        };
        if !self.journal.fits(size) {
            return Ok(Verdict::Full);
        }
        let room = self.furnish(alloc, size, &change)?;
        Ok(Verdict::Planned(change, room))
    }

    /// Takes the memory for a change with a payload of so many bytes.
    fn furnish(&mut self, alloc: Global, size: u64, change: &Change) -> Mem<StepRoom>
        ensures room { HasOtherRoom self.old self.new }
        ensures records { IfOk result (λ space. IsSpaceFor space change.now.ready.skeleton) }
        ensures state { OnOk result (HasRoomFor self.new.state change.now.ready) }
        ensures ring { OnOk result (length change.now.ready.skeleton.keys.items ≤ self.new.ring.spare) }
        ensures names { OnOk result (1 ≤ self.new.names.spare) }
        ensures payload { OnOk result (size ≤ self.new.journal.room) }
    {
        self.journal.prepare(size)?;
        self.state.reserve(&change.ready)?;
        self.names.reserve()?;
        StepRoom::reserve(alloc, &mut self.ring, change.ready.skeleton())
    }

    /// Seals what is planned under the keys that were drawn for it, commits it, and makes its change. Want of memory doesn't end it.
    ///
    /// Only `DiskFault` comes, where the disk's faults rose in this call, and closes the journal.
    fn carry_out<D: Disk>(
        &mut self,
        disk: &mut D,
        asked: &Asked<'_>,
        mut change: Change,
        room: StepRoom,
        drawn: &[[u8; 32]],
    ) -> Result<Reply, ApplyFault>
        requires open { self.old.journal.is_closed ≡ false }
        requires inside { self.old.journal.end ≤ D.size_of disk.old }
        requires form { IsWellNamed (deed_of asked.now) }
        requires accepted { deed_refusal (is_strict self.old.state.keys) (own_store self.old) (deed_of asked.now) self.old.file_bytes
            ≡ None }
        requires suits { Suits self.old.state.keys (deed_of asked.now) }
        requires drafted { IsDrafted (deed_of asked.now) self.old change }
        requires furnished { IsFurnished (deed_of asked.now) self.old change room }
        requires count { length drawn.now ≡ length change.ready.skeleton.keys.items }
        requires sizes { AreKeys drawn.now }
        ensures done { OnOk result (IsCarriedOut (deed_of asked.now) drawn.now self.old self.new (D.shown disk.old)
            (D.shown disk.new)) }
        ensures interrupted { OnErr result (IsInterrupted (deed_of asked.now) drawn.now self.old (D.shown disk.old)
            (D.shown disk.new)) }
        ensures later { D.moment disk.old ≤ D.moment disk.new }
        ensures time { GoesOn (D.moment disk.old) (D.since disk.old) (D.since disk.new) }
        ensures stops { StopsWithin (deed_of asked.now) drawn.now self.old (D.shown disk.old) (D.shown disk.new)
            (D.may_leave disk.old) (D.may_leave disk.new) (D.since disk.new (D.moment disk.old)) }
        ensures handed { OnOk result (HandsAll (deed_of asked.now) drawn.now self.old (D.shown disk.old) (D.shown disk.new)) }
        ensures published { PublishesWithin (deed_of asked.now) self.old (D.shown disk.old) (D.may_leave disk.old)
            (FromThenOn D.moment D.since disk.old disk.new) }
        ensures reply { IfOk result (λ reply. reply ≡ reply_for change.note drawn.now) }
        ensures fault { IfErr result (λ fault. fault ≡ ApplyFault.DiskFault) }
        ensures closed { OnErr result (IsTrue self.new.journal.is_closed) }
        ensures open { OnOk result (self.new.journal.is_closed ≡ self.old.journal.is_closed) }
        ensures durable { OnOk result (IsDurable (D.may_leave disk.new) (D.shown disk.new)) }
        ensures inside { OnOk result (self.new.journal.end ≤ D.size_of disk.new) }
        ensures key { self.new.key ≡ self.old.key }
        ensures file_bytes { self.new.file_bytes ≡ self.old.file_bytes }
        ensures counted { OnOk result (self.new.tally ≡ counted_with self.old.tally (deed_of asked.now) change.ready.skeleton) }
        ensures uncounted { OnErr result (self.new.tally ≡ self.old.tally) }
        ensures told { is_some (D.shown disk.new) ≡ is_some (D.shown disk.old) }
        ensures counts { CountsFault result (D.faults disk.old) (D.faults disk.new) }
    {
        sound_owners_keep_a_store();
        sound_owners_can_seal();
        carried_out_owners_stay_sound();
        deeds_leave_the_titles();
        self.state.is_seen();
        self.journal.journal_is_within();
        let tally = self.tally.with(asked, &change);
        let reply = change.take_key(drawn);
        let Change {
            note,
            ready,
            text,
            titles,
        } = change;
        let Ok(mut counter) = begin(&mut self.journal, disk, self.counter.take()) else {
            return Err(ApplyFault::DiskFault);
        };
        let payload = seal_step(
            &mut self.ring,
            &mut counter,
            note,
            ready.skeleton(),
            drawn,
            text,
            room,
        );
        let Ok(()) = commit_within(&mut self.journal, disk, &payload) else {
            return Err(ApplyFault::DiskFault);
        };
        self.counter = Some(counter);
        self.tally = tally;
        self.state.settle(ready);
        change_names(&mut self.names, titles);
        Ok(reply)
    }
}

/// Begins the session's epoch where it has none yet, and answers its counter. A stop leaves the log with that epoch or without.
fn begin<D: Disk>(
    journal: &mut Journal,
    disk: &mut D,
    counter: Option<Counter>,
) -> Result<Counter, CommitFault>
    requires open { journal.old.is_closed ≡ false }
    requires inside { journal.old.end ≤ D.size_of disk.old }
    requires room { journal.old.end + batch_len ≤ journal.old.limit }
    requires counts { is_some counter ≡ journal.old.has_epoch }
    ensures begun { IfOk result (λ starts. HasBegun journal.old journal.new counter starts (D.shown disk.old) (D.shown disk.new)) }
    ensures interrupted { OnErr result ((journal.old.has_epoch ≡ false)
        × MayJoin (next_epoch journal.old) journal.old (D.shown disk.old) (D.shown disk.new)) }
    ensures later { D.moment disk.old ≤ D.moment disk.new }
    ensures time { GoesOn (D.moment disk.old) (D.since disk.old) (D.since disk.new) }
    ensures adds { AddsBatches (epoch_due journal.old) journal.old (D.shown disk.old) (D.shown disk.new)
        (D.may_leave disk.old) (D.may_leave disk.new) (D.since disk.new (D.moment disk.old)) }
    ensures added { OnOk result (HasAdded (epoch_due journal.old) journal.old (D.shown disk.old) (D.shown disk.new)) }
    ensures published { AddsPublished (epoch_due journal.old) journal.old (D.shown disk.old) (D.may_leave disk.old)
        (FromThenOn D.moment D.since disk.old disk.new) }
    ensures calm { IsDurable (D.may_leave disk.old) (D.shown disk.old) → OnOk result (IsDurable (D.may_leave disk.new) (D.shown disk.new)) }
    ensures closed { OnErr result (IsTrue journal.new.is_closed) }
    ensures open { OnOk result (journal.new.is_closed ≡ journal.old.is_closed) }
    ensures owner { journal.new.owner ≡ journal.old.owner }
    ensures inside { OnOk result (journal.new.end ≤ D.size_of disk.new) }
    ensures told { is_some (D.shown disk.new) ≡ is_some (D.shown disk.old) }
    ensures counts { CountsFault result (D.faults disk.old) (D.faults disk.new) }
{
    match counter {
        Some(held) => Ok(held),
        None => {
            let epoch = journal.begin_epoch(disk)?;
            Ok(Counter::new(epoch))
        }
    }
}

/// Commits a command that ends within the store limit, in the epoch that the journal began.
fn commit_within<D: Disk>(
    journal: &mut Journal,
    disk: &mut D,
    payload: &Payload,
) -> Result<(), CommitFault>
    requires open { journal.old.is_closed ≡ false }
    requires inside { journal.old.end ≤ D.size_of disk.old }
    requires begun { IsTrue journal.old.has_epoch }
    requires spellable { IsSpellable (plain_payload payload.now) }
    requires room { payload_size (plain_payload payload.now) ≤ journal.old.room }
    requires ends { journal.old.end + (batch_len + payload_size (plain_payload payload.now)) ≤ journal.old.limit }
    ensures behind { OnOk result (IsBehind (next_command journal.old (spell_payload (plain_payload payload.now))) journal.old journal.new) }
    ensures joined { OnOk result (Joins (next_command journal.old (spell_payload (plain_payload payload.now))) journal.old journal.new
        (D.shown disk.old) (D.shown disk.new)) }
    ensures interrupted { OnErr result (MayJoin (next_command journal.old (spell_payload (plain_payload payload.now))) journal.old
        (D.shown disk.old) (D.shown disk.new)) }
    ensures later { D.moment disk.old ≤ D.moment disk.new }
    ensures time { GoesOn (D.moment disk.old) (D.since disk.old) (D.since disk.new) }
    ensures adds { AddsBatches (next_command journal.old (spell_payload (plain_payload payload.now))
        ∷ []) journal.old (D.shown disk.old) (D.shown disk.new)
        (D.may_leave disk.old) (D.may_leave disk.new) (D.since disk.new (D.moment disk.old)) }
    ensures added { OnOk result (HasAdded (next_command journal.old (spell_payload (plain_payload payload.now)) ∷ []) journal.old
        (D.shown disk.old) (D.shown disk.new)) }
    ensures published { KeepsPublished (next_command journal.old (spell_payload (plain_payload payload.now))) journal.old
        (D.shown disk.old) (D.may_leave disk.old) (FromThenOn D.moment D.since disk.old disk.new) }
    ensures begun { journal.new.has_epoch ≡ journal.old.has_epoch }
    ensures owner { journal.new.owner ≡ journal.old.owner }
    ensures durable { OnOk result (IsDurable (D.may_leave disk.new) (D.shown disk.new)) }
    ensures inside { OnOk result (journal.new.end ≤ D.size_of disk.new) }
    ensures told { is_some (D.shown disk.new) ≡ is_some (D.shown disk.old) }
    ensures closed { OnErr result (IsTrue journal.new.is_closed) }
    ensures counts { CountsFault result (D.faults disk.old) (D.faults disk.new) }
{
    journal.commit(disk, payload)
}

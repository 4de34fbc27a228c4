//! A journal that is open for writing: it knows what its next batch follows, and commits it.
ghost use Rattle.std.specs.Prelude.{◌≡◌, ◌↔◌, ◌+◌, ◌-◌, ◌*◌, ◌<◌, ◌≤◌, ◌^◌, [], ◌∷◌, ◌++◌, codes, false, if◌then◌else◌, is_some, max, None};
ghost use Rattle.std.specs.Prelude.{Some, Err, IfOk, IfErr, OnErr, OnOk, IsTrue};
ghost use Rattle.cry_base.specs.Layout.{batch_len, header_len};
ghost use Rattle.cry_base.specs.Limits.{most_store_bytes};
ghost use Rattle.cry_io.specs.Counts.{CountsFault};
ghost use Rattle.cry_io.specs.Stops.{IsDurable};
ghost use Rattle.cry_io.specs.Told.{WhereBothTold, WhereTold};
ghost use Rattle.batch_log.specs.Moments.{FromThenOn, GoesOn};
ghost use Rattle.record_format.specs.Plain.{plain_payload};
ghost use Rattle.record_format.specs.Sizes.{payload_size};
ghost use Rattle.record_format.specs.Spellable.{IsSpellable};
ghost use Rattle.record_format.specs.Spelling.{spell_payload};
ghost use Rattle.commit_journal.specs.Handing.{Hands, all_written, header_writes, joining_writes};
ghost use Rattle.commit_journal.specs.Image.{image};
ghost use Rattle.commit_journal.specs.Journals as journals;
ghost use Rattle.commit_journal.specs.Opening as opening;
ghost use Rattle.commit_journal.specs.Stopping as stopping;

use crate::CommitFault;
use crate::batch::{EpochBatch, command_batch, epoch_batch};
use crate::layout::{BATCH_LEN, CLOSED, EPOCH_BATCH_LEN, HEADER_LEN};
use crate::past::Past;
use batch_log::{append, write_header};
use chacha_seal::{Key, LogKey, OwnerK, check_of};
use cry_base::{Epoch, Limits, List, Mem, OutOfMemory, Text};
use cry_io::Disk;
use record_format::{Payload, payload_len};
use std::alloc::Global;
use std::marker::Model;
use std::mem;

/// The log of a store, to whose end batches are committed. It keeps nothing of a batch but the place where it begins.
#[derive(Drop)]
pub struct Journal {
    alloc: Global,
    owner: LogKey,
    past: Past,
    begun: bool,
    closed: bool,
    limit: u64,
    batch: Text,
}

impl Model for Journal {
    ghost use Rattle.std.specs.Prelude.{◌≡◌, ◌+◌, ◌-◌, ◌*◌, ◌≤◌, []};
    ghost use Rattle.cry_base.specs.Layout.{batch_len, header_len};
    ghost use Rattle.cry_base.specs.Limits.{most_store_bytes};
    ghost use Rattle.commit_journal.specs.Journals.{JournalState};

    ghost Value = { JournalState };

    ghost view = { λ j. record {
      owner = j.owner.bytes;
      batches = j.past.number;
      epoch = j.past.epoch.0;
      has_epoch = j.begun;
      end = j.past.at;
      tag = j.past.tag;
      limit = j.limit;
      is_closed = j.closed;
      room = j.batch.spare - batch_len;
    } };

    ghost invariant = { λ j. (header_len + batch_len * j.past.number ≤ j.past.at) × (j.past.at ≤ most_store_bytes)
        × (j.past.epoch.0 ≤ j.past.number) × (j.limit ≤ most_store_bytes) × (j.batch.items ≡ []) };
}

fn header(check: &[u8; 32]) -> [u8; HEADER_LEN]
    ensures { result ≡ (codes "CRYPTREE" ++ 1 ∷ check.now) ++ 0 ∷ [] }
{
    let mut header = [0; HEADER_LEN];
    header[..8].copy_from_slice(b"CRYPTREE");
    header[8] = 1;
    header[9..41].copy_from_slice(check);
    header
}

fn epoch_len(has_epoch: bool) -> u64
    ensures { result ≡ (if has_epoch then 0 else batch_len) }
{
    if has_epoch { 0 } else { BATCH_LEN }
}

impl Journal {
    /// Makes the journal of a store without batches on an empty disk: its header, behind which the gate is closed.
    ///
    /// `DiskFault` comes only where the disk's faults rose in this call; the disk is then to be thrown away. Another fault
    /// never comes.
    pub fn make<D: Disk>(
        alloc: Global,
        disk: &mut D,
        owner: &Key<OwnerK>,
        limits: Limits,
    ) -> Result<Journal, CommitFault>
        requires blank { D.size_of disk.old ≡ 0 }
        requires fits { header_len ≤ limits.store_bytes }
        requires known { limits.store_bytes ≤ most_store_bytes }
        ensures state { IfOk result (λ j. j ≡ journals.empty_journal owner.now.bytes limits.store_bytes j) }
        ensures stands { IfOk result (journals.IsJournalOf []) }
        ensures shows { OnOk result (WhereTold (D.shown disk.new) (λ s. s ≡ image owner.now.bytes [] ++ 0 ∷ [])) }
        ensures durable { OnOk result (IsDurable (D.may_leave disk.new) (D.shown disk.new)) }
        ensures size { OnOk result (D.size_of disk.new ≡ header_len) }
        ensures told { is_some (D.shown disk.new) ≡ is_some (D.shown disk.old) }
        ensures later { D.moment disk.old ≤ D.moment disk.new }
        ensures time { GoesOn (D.moment disk.old) (D.since disk.old) (D.since disk.new) }
        ensures hands { Hands (header_writes owner.now.bytes) (result ≡ Err CommitFault.DiskFault)
            (D.shown disk.old) (D.shown disk.new) (D.since disk.new (D.moment disk.old)) }
        ensures fault { IfErr result (λ fault. fault ≡ CommitFault.DiskFault) }
        ensures counts { CountsFault result (D.faults disk.old) (D.faults disk.new) }
    {
        let mut journal = Journal::blank(alloc, limits);
        journal.found(disk, owner)?;
        Ok(journal)
    }

    /// A journal of no store yet, for which memory may be taken before its owner's key is there. It commits nothing before
    /// `found`. It takes no memory.
    pub fn blank(alloc: Global, limits: Limits) -> Journal
        requires known { limits.store_bytes ≤ most_store_bytes }
        ensures closed { IsTrue result.is_closed }
        ensures limit { result.limit ≡ limits.store_bytes }
    {
        Journal {
            alloc,
            owner: LogKey::of(&Key::owner([0; 32])),
            past: Past {
                at: HEADER_LEN as u64,
                number: 0,
                epoch: Epoch(0),
                tag: [0; 32],
                gate: CLOSED,
            },
            begun: false,
            closed: true,
            limit: limits.store_bytes,
            batch: List::new(alloc),
        }
    }

    /// Makes this the journal of a store without batches on an empty disk: its header, behind which the gate is closed. It
    /// has the room that was taken for it, and takes no memory.
    ///
    /// `DiskFault` comes only where the disk's faults rose in this call, and closes the journal; the disk is then to be thrown
    /// away. Another fault never comes.
    pub fn found<D: Disk>(&mut self, disk: &mut D, owner: &Key<OwnerK>) -> Result<(), CommitFault>
        requires blank { D.size_of disk.old ≡ 0 }
        requires fits { header_len ≤ self.old.limit }
        ensures state { OnOk result (self.new ≡ journals.empty_journal owner.now.bytes self.old.limit self.old) }
        ensures stands { OnOk result (journals.IsJournalOf [] self.new) }
        ensures closed { OnErr result (IsTrue self.new.is_closed) }
        ensures shows { OnOk result (WhereTold (D.shown disk.new) (λ s. s ≡ image owner.now.bytes [] ++ 0 ∷ [])) }
        ensures durable { OnOk result (IsDurable (D.may_leave disk.new) (D.shown disk.new)) }
        ensures size { OnOk result (D.size_of disk.new ≡ header_len) }
        ensures told { is_some (D.shown disk.new) ≡ is_some (D.shown disk.old) }
        ensures later { D.moment disk.old ≤ D.moment disk.new }
        ensures time { GoesOn (D.moment disk.old) (D.since disk.old) (D.since disk.new) }
        ensures written { OnOk result (WhereBothTold (D.shown disk.old) (D.shown disk.new)
            (λ x y. y ≡ all_written (header_writes owner.now.bytes) x)) }
        ensures hands { Hands (header_writes owner.now.bytes) (result ≡ Err CommitFault.DiskFault)
            (D.shown disk.old) (D.shown disk.new) (D.since disk.new (D.moment disk.old)) }
        ensures fault { IfErr result (λ fault. fault ≡ CommitFault.DiskFault) }
        ensures counts { CountsFault result (D.faults disk.old) (D.faults disk.new) }
    {
        let check = check_of(owner.bytes());
        let Ok(()) = write_header(disk, &header(&check)) else {
            self.closed = true;
            return Err(CommitFault::DiskFault);
        };
        *self = Journal {
            alloc: self.alloc,
            owner: LogKey::of(owner),
            past: Past {
                at: HEADER_LEN as u64,
                number: 0,
                epoch: Epoch(0),
                tag: check,
                gate: CLOSED,
            },
            begun: false,
            closed: false,
            limit: self.limit,
            batch: mem::replace(&mut self.batch, List::new(self.alloc)),
        };
        Ok(())
    }

    /// A journal that goes on behind a log. It takes no memory.
    pub(crate) fn behind(alloc: Global, owner: LogKey, past: Past, store_bytes: u64) -> Journal
        requires room { opening.HasRoom past }
        requires known { store_bytes ≤ most_store_bytes }
        ensures { result ≡ opening.journal_behind owner.bytes store_bytes past result }
    {
        Journal {
            alloc,
            owner,
            past,
            begun: false,
            closed: false,
            limit: store_bytes,
            batch: List::new(alloc),
        }
    }

    /// Whether this session has begun an epoch: the commands that it commits stand in it.
    pub fn has_epoch(&self) -> bool
        ensures { result ≡ self.now.has_epoch }
    {
        self.begun
    }

    /// Whether a fault of the disk closed this journal: it commits nothing more.
    pub fn is_closed(&self) -> bool
        ensures { result ≡ self.now.is_closed }
    {
        self.closed
    }

    /// The place where the log ends, in bytes: behind the closed gate that follows its last batch.
    pub fn end(&self) -> u64
        ensures { result ≡ self.now.end }
    {
        self.past.at
    }

    /// Ends the session: what is committed from now on belongs to another one, which begins an epoch of its own. It takes no
    /// memory.
    pub fn end_session(&mut self)
        ensures { self.new ≡ record self.old { has_epoch = false } }
    {
        self.begun = false;
    }

    /// Law: each batch has its bytes, all of them lie within the largest store, and no more epochs were begun than there are
    /// batches.
    pub fn journal_is_within(&self)
        ensures bytes { header_len + batch_len * self.now.batches ≤ self.now.end }
        ensures within { self.now.end ≤ most_store_bytes }
        ensures epochs { self.now.epoch ≤ self.now.batches }
        ensures bound { self.now.limit ≤ most_store_bytes }
    {
        let _ = &self.past;
    }

    /// Whether a command with a payload of so many bytes ends within the store limit, and the epoch that it still needs.
    pub fn fits(&self, payload: u64) -> bool
        ensures { IsTrue result ↔ (journals.end_with self.now payload ≤ self.now.limit) }
    {
        let least = self.past.at + BATCH_LEN + epoch_len(self.begun);
        least <= self.limit && payload <= self.limit - least
    }

    /// Takes the memory for a batch with a payload of so many bytes. One that begins an epoch takes none.
    pub fn prepare(&mut self, payload: u64) -> Mem<()>
        ensures state { self.new ≡ record self.old { room = self.new.room } }
        ensures room { OnOk result (payload ≤ self.new.room) }
        ensures room_kept { self.old.room ≤ self.new.room }
    {
        let Some(bytes) = payload.checked_add(BATCH_LEN) else {
            return Err(OutOfMemory);
        };
        self.batch.reserve(bytes as usize)
    }

    fn refusal(&self, payload: u64) -> Option<CommitFault>
        requires { payload < 2 ^ 63 }
        ensures { result ≡ journals.refusal self.now payload }
    {
        let need = BATCH_LEN + payload;
        if self.closed {
            return Some(CommitFault::Closed);
        }
        if self.limit < self.past.at + need {
            return Some(CommitFault::Full {
                need,
                left: self.limit.saturating_sub(self.past.at),
            });
        }
        None
    }

    /// Commits a batch that begins the next epoch, and answers that epoch. It takes no memory.
    ///
    /// `Closed` comes exactly where an earlier call of this journal answered `DiskFault`, and else `Full` exactly where the
    /// batch would end past the store limit; nothing is changed by either. `DiskFault` comes only where the disk's faults
    /// rose in this call, and closes the journal: the disk then shows the log with this batch, or without. `OutOfMemory` never
    /// comes.
    ///
    /// Where nothing was pending, a stop at any moment of the call leaves the log with this batch or without, and none takes back what
    /// was published at that moment or before. Whatever it answers, the disk is handed the three writes of this batch and nothing else.
    pub fn begin_epoch<D: Disk>(&mut self, disk: &mut D) -> Result<Epoch, CommitFault>
        requires inside { self.old.is_closed ≡ false → self.old.end ≤ D.size_of disk.old }
        ensures refused { (fault : CommitFault) → journals.refusal self.old 0 ≡ Some fault →
            (result ≡ Err fault) × (self.new ≡ self.old) × (disk.new ≡ disk.old) }
        ensures taken { journals.refusal self.old 0 ≡ None → IfErr result (λ fault. fault ≡ CommitFault.DiskFault) }
        ensures behind { OnOk result (journals.IsBehind (journals.next_epoch self.old) self.old self.new) }
        ensures joined { OnOk result (journals.Joins (journals.next_epoch self.old) self.old self.new (D.shown disk.old)
            (D.shown disk.new)) }
        ensures interrupted { result ≡ Err CommitFault.DiskFault
            → journals.MayJoin (journals.next_epoch self.old) self.old (D.shown disk.old) (D.shown disk.new) }
        ensures later { D.moment disk.old ≤ D.moment disk.new }
        ensures time { GoesOn (D.moment disk.old) (D.since disk.old) (D.since disk.new) }
        ensures kept { stopping.KeepsLog (journals.next_epoch self.old) self.old
            (D.shown disk.old) (D.may_leave disk.old) (D.since disk.new (D.moment disk.old)) }
        ensures held { stopping.HoldsPublished (journals.next_epoch self.old) self.old
            (D.shown disk.old) (D.may_leave disk.old) (D.since disk.new (D.moment disk.old)) }
        ensures published { stopping.KeepsPublished (journals.next_epoch self.old) self.old
            (D.shown disk.old) (D.may_leave disk.old) (FromThenOn D.moment D.since disk.old disk.new) }
        ensures written { OnOk result (WhereBothTold (D.shown disk.old) (D.shown disk.new)
            (λ x y. y ≡ all_written (joining_writes (journals.next_epoch self.old) self.old) x)) }
        ensures hands { Hands (joining_writes (journals.next_epoch self.old) self.old) (result ≡ Err CommitFault.DiskFault)
            (D.shown disk.old) (D.shown disk.new) (D.since disk.new (D.moment disk.old)) }
        ensures holds { stopping.HoldsLog (journals.next_epoch self.old) self.old
            (D.shown disk.old) (D.may_leave disk.old) (D.shown disk.new) (D.may_leave disk.new) }
        ensures epoch { IfOk result (λ epoch. epoch.0 ≡ self.old.epoch + 1) }
        ensures begun { OnOk result (IsTrue self.new.has_epoch) }
        ensures room { self.new.room ≡ self.old.room }
        ensures owner { self.new.owner ≡ self.old.owner }
        ensures durable { OnOk result (IsDurable (D.may_leave disk.new) (D.shown disk.new)) }
        ensures inside { OnOk result (self.new.end ≤ D.size_of disk.new) }
        ensures size { OnOk result (D.size_of disk.new ≡ max (D.size_of disk.old) self.new.end) }
        ensures told { is_some (D.shown disk.new) ≡ is_some (D.shown disk.old) }
        ensures counts { D.faults disk.old ≤ D.faults disk.new }
        ensures disk_fault { result ≡ Err CommitFault.DiskFault → (D.faults disk.old < D.faults disk.new) × IsTrue self.new.is_closed }
    {
        if let Some(fault) = self.refusal(0) {
            return Err(fault);
        }
        let end = self.past.at;
        let number = self.past.number + 1;
        let epoch = Epoch(self.past.epoch.0 + 1);
        let veil = self.owner.veil_key(epoch, number);
        let EpochBatch { bytes, tag } = epoch_batch(
            &self.owner,
            &self.past.tag,
            &veil,
            number,
            epoch,
        );
        let Ok(()) = append(disk, end, &bytes, &veil) else {
            self.closed = true;
            return Err(CommitFault::DiskFault);
        };
        self.past = Past {
            at: end + EPOCH_BATCH_LEN as u64,
            number,
            epoch,
            tag,
            gate: CLOSED,
        };
        self.begun = true;
        Ok(epoch)
    }

    /// Commits a command, in the epoch that this journal began last. It takes no memory: `prepare` took it.
    ///
    /// `Closed` comes exactly where an earlier call of this journal answered `DiskFault`, and else `Full` exactly where the
    /// batch would end past the store limit; nothing is changed by either. `DiskFault` comes only where the disk's faults
    /// rose in this call, and closes the journal: the disk then shows the log with this batch, or without. `OutOfMemory` never
    /// comes.
    ///
    /// Where nothing was pending, a stop at any moment of the call leaves the log with this batch or without, and none takes back what
    /// was published at that moment or before. Whatever it answers, the disk is handed the three writes of this batch and nothing else.
    pub fn commit<D: Disk>(&mut self, disk: &mut D, payload: &Payload) -> Result<(), CommitFault>
        requires begun { IsTrue self.old.has_epoch }
        requires spellable { IsSpellable (plain_payload payload.now) }
        requires room { payload_size (plain_payload payload.now) ≤ self.old.room }
        requires inside { self.old.is_closed ≡ false → self.old.end ≤ D.size_of disk.old }
        ensures refused { (fault : CommitFault) → journals.refusal self.old (payload_size (plain_payload payload.now)) ≡ Some fault →
            (result ≡ Err fault) × (self.new ≡ self.old) × (disk.new ≡ disk.old) }
        ensures taken { journals.refusal self.old (payload_size (plain_payload payload.now)) ≡ None →
            IfErr result (λ fault. fault ≡ CommitFault.DiskFault) }
        ensures behind { OnOk result (journals.IsBehind (journals.next_command self.old (spell_payload (plain_payload payload.now)))
            self.old self.new) }
        ensures joined { OnOk result (journals.Joins (journals.next_command self.old (spell_payload (plain_payload payload.now)))
            self.old self.new (D.shown disk.old) (D.shown disk.new)) }
        ensures interrupted { result ≡ Err CommitFault.DiskFault
            → journals.MayJoin (journals.next_command self.old (spell_payload (plain_payload payload.now)))
            self.old (D.shown disk.old) (D.shown disk.new) }
        ensures later { D.moment disk.old ≤ D.moment disk.new }
        ensures time { GoesOn (D.moment disk.old) (D.since disk.old) (D.since disk.new) }
        ensures kept { stopping.KeepsLog (journals.next_command self.old (spell_payload (plain_payload payload.now))) self.old
            (D.shown disk.old) (D.may_leave disk.old) (D.since disk.new (D.moment disk.old)) }
        ensures held { stopping.HoldsPublished (journals.next_command self.old (spell_payload (plain_payload payload.now))) self.old
            (D.shown disk.old) (D.may_leave disk.old) (D.since disk.new (D.moment disk.old)) }
        ensures published { stopping.KeepsPublished (journals.next_command self.old (spell_payload (plain_payload payload.now))) self.old
            (D.shown disk.old) (D.may_leave disk.old) (FromThenOn D.moment D.since disk.old disk.new) }
        ensures written { OnOk result (WhereBothTold (D.shown disk.old) (D.shown disk.new)
            (λ x y. y ≡ all_written (joining_writes
            (journals.next_command self.old (spell_payload (plain_payload payload.now))) self.old) x)) }
        ensures hands { Hands (joining_writes (journals.next_command self.old (spell_payload (plain_payload payload.now))) self.old)
            (result ≡ Err CommitFault.DiskFault) (D.shown disk.old) (D.shown disk.new) (D.since disk.new (D.moment disk.old)) }
        ensures holds { stopping.HoldsLog (journals.next_command self.old (spell_payload (plain_payload payload.now))) self.old
            (D.shown disk.old) (D.may_leave disk.old) (D.shown disk.new) (D.may_leave disk.new) }
        ensures begun { self.new.has_epoch ≡ self.old.has_epoch }
        ensures owner { self.new.owner ≡ self.old.owner }
        ensures durable { OnOk result (IsDurable (D.may_leave disk.new) (D.shown disk.new)) }
        ensures inside { OnOk result (self.new.end ≤ D.size_of disk.new) }
        ensures size { OnOk result (D.size_of disk.new ≡ max (D.size_of disk.old) self.new.end) }
        ensures told { is_some (D.shown disk.new) ≡ is_some (D.shown disk.old) }
        ensures counts { D.faults disk.old ≤ D.faults disk.new }
        ensures disk_fault { result ≡ Err CommitFault.DiskFault → (D.faults disk.old < D.faults disk.new) × IsTrue self.new.is_closed }
    {
        let size = payload_len(payload);
        if let Some(fault) = self.refusal(size) {
            return Err(fault);
        }
        let end = self.past.at;
        let number = self.past.number + 1;
        let epoch = self.past.epoch;
        let veil = self.owner.veil_key(epoch, number);
        let mut batch = mem::replace(&mut self.batch, List::new(self.alloc));
        let tag = command_batch(
            &self.owner,
            &self.past.tag,
            &veil,
            number,
            epoch,
            payload,
            &mut batch,
        );
        let Ok(()) = append(disk, end, batch.as_slice(), &veil) else {
            self.closed = true;
            return Err(CommitFault::DiskFault);
        };
        self.past = Past {
            at: end + (BATCH_LEN + size),
            number,
            epoch,
            tag,
            gate: CLOSED,
        };
        Ok(())
    }
}

//! One reader who stays.
ghost use Rattle.std.specs.Prelude.{◌≡◌, ◌≢◌, ◌<◌, ◌≤◌, ◌+◌, ◌++◌, ℕ, [], ◌∷◌, Err, IfErr, IfOk, IsTrue, List as AList};
ghost use Rattle.std.specs.Prelude.{Ok, OnErr, OnOk, length, max};
ghost use Rattle.cry_base.specs.declared.client.Bundle.TheVariants.{Holder};
ghost use Rattle.cry_base.specs.declared.ids.HolderId.{HolderId as TheHolderId};
ghost use Rattle.cry_io.specs.Reading.{IsOnlyRead};
ghost use Rattle.cry_io.specs.Told.{WhereTold};
ghost use Rattle.cry_base.specs.Layout.{header_len};
ghost use Rattle.commit_journal.specs.Readers.{header_at};
ghost use Rattle.commit_journal.specs.Streaming.{IsAt, ShowsGiven, regated};
ghost use Rattle.holder_client.specs.Lines.{plain_view};
ghost use Rattle.log_visits.specs.Answering.{AnswersAs, AnswersBy, IsFault, IsOfBytes};
ghost use Rattle.log_visits.specs.Judging.{bundle_log, view_with};
ghost use Rattle.read_steps.specs.Steps as steps;
ghost use Rattle.read_steps.specs.Steps.{IsSameButGate, IsSession, next_batch};

use crate::batch_count::BatchCount;
use crate::one_more::{OneMore, read_one};
use chacha_seal::Key;
use commit_journal::PublicLog;
use cry_base::{Bundle, Line, List};
use cry_io::Disk;
use holder_client::{Keeps, ReadLog, Reader, read_log};
use log_visits::ClientFault;
use std::alloc::Global;
use std::marker::Model;

/// A reader who reads a log batch by batch, up to a batch that is pinned, while others write. It holds no payload.
///
/// Where memory was wanting in [`Session::step`] the session may be spent: it has nothing to show any more.
#[derive(Drop)]
pub struct Session {
    bundle: Bundle,
    log: PublicLog,
    reader: Option<Reader>,
    pinned: u32,
}

impl Model for Session {
    ghost use Rattle.std.specs.Prelude.{is_some};
    ghost use Rattle.read_steps.specs.Steps.{SessionView, IsSession, KeepsOf};

    ghost Value = { SessionView };

    ghost view = { λ s. record { bundle = s.bundle; log = s.log; ready = is_some s.reader; pinned = s.pinned } };

    ghost invariant = { λ s. IsSession (record { bundle = s.bundle; log = s.log; ready = is_some s.reader; pinned = s.pinned })
        × KeepsOf s.log s.reader };
}

/// Begins to read the log as the bundle's reader reads it.
fn begin_log<D: Disk>(
    alloc: Global,
    disk: &mut D,
    bundle: &Bundle,
) -> Result<PublicLog, ClientFault>
    ensures failed { WhereTold (D.shown disk.old) (λ s. IfErr result (λ fault. IsFault fault (bundle_log bundle.now s))) }
    ensures fresh { IfOk result (λ log. (log.owner ≡ steps.owner_in bundle.now) × (log.given ≡ []) × (log.starts ≡ [])) }
    ensures start { IfOk result (λ log. IsAt header_len 0 0 log.past) }
    ensures header { WhereTold (D.shown disk.old) (λ s. IfOk result (λ log. header_at log.owner s ≡ Ok log.past)) }
    ensures no_key { (h : TheHolderId) (key : AList ℕ) → bundle.now ≡ Holder h key → result ≢ Err ClientFault.WrongKey }
    ensures of_bytes { IfErr result IsOfBytes }
    ensures read_only { IsOnlyRead D.Disk disk.old disk.new }
    ensures counts { D.faults disk.old ≤ D.faults disk.new }
    ensures disk_fault { result ≡ Err ClientFault.DiskFault → D.faults disk.old < D.faults disk.new }
{
    match bundle {
        Bundle::Owner { key } => {
            let owner = Key::owner(*key);
            Ok(PublicLog::begin(alloc, disk, Some(&owner))?)
        }
        Bundle::Holder { .. } => Ok(PublicLog::begin(alloc, disk, None)?),
    }
}

/// How many batches a log has, read to its end as the bundle's reader reads it.
fn count_batches<D: Disk>(alloc: Global, disk: &mut D, bundle: &Bundle) -> Result<u32, ClientFault>
    ensures verdict { WhereTold (D.shown disk.old) (λ s. AnswersBy (λ count log. count ≡ length log) result (bundle_log bundle.now s)) }
    ensures no_key { (h : TheHolderId) (key : AList ℕ) → bundle.now ≡ Holder h key → result ≢ Err ClientFault.WrongKey }
    ensures of_bytes { IfErr result IsOfBytes }
    ensures read_only { IsOnlyRead D.Disk disk.old disk.new }
    ensures counts { D.faults disk.old ≤ D.faults disk.new }
    ensures disk_fault { result ≡ Err ClientFault.DiskFault → D.faults disk.old < D.faults disk.new }
{
    let ReadLog { kept: count, .. }: ReadLog<BatchCount> = read_log(alloc, disk, bundle)?;
    Ok(count.batches)
}

impl Session {
    /// Begins a session of the bundle's reader: reads the log to its end, and pins the batches that are published now. None of them
    /// is read yet. The disk is never written.
    ///
    /// `NotAStore`, `Damaged` and `Tampered` come as `holder_client::read_log` says, and `WrongKey` for the owner's bundle alone. A
    /// number that no holder has is no fault here.
    pub fn begin<D: Disk>(
        alloc: Global,
        disk: &mut D,
        bundle: Bundle,
    ) -> Result<Session, ClientFault>
        ensures verdict { WhereTold (D.shown disk.old)
            (λ s. AnswersBy (λ session log. session.pinned ≡ length log) result (bundle_log bundle s)) }
        ensures fresh { IfOk result (λ session. (session.bundle ≡ bundle) × (session.log.given ≡ []) × IsTrue session.ready) }
        ensures header { WhereTold (D.shown disk.old)
            (λ s. IfOk result (λ session. header_at session.log.owner s ≡ Ok session.log.past)) }
        ensures session { IfOk result IsSession }
        ensures no_key { (h : TheHolderId) (key : AList ℕ) → bundle ≡ Holder h key → result ≢ Err ClientFault.WrongKey }
        ensures of_bytes { IfErr result IsOfBytes }
        ensures read_only { IsOnlyRead D.Disk disk.old disk.new }
        ensures counts { D.faults disk.old ≤ D.faults disk.new }
        ensures disk_fault { result ≡ Err ClientFault.DiskFault → D.faults disk.old < D.faults disk.new }
    {
        let log = begin_log(alloc, disk, &bundle)?;
        let pinned = count_batches(alloc, disk, &bundle)?;
        let reader = Reader::new(alloc)?;
        Ok(Session {
            bundle,
            log,
            reader: Some(reader),
            pinned,
        })
    }

    /// Pins the batches that are published now, where these are more. What was read stays. The disk is never written, and after a
    /// fault the session is unchanged. The faults are those of [`Session::begin`].
    pub fn pin<D: Disk>(&mut self, alloc: Global, disk: &mut D) -> Result<(), ClientFault>
        ensures pinned { WhereTold (D.shown disk.old)
            (λ s. AnswersBy (λ _ log. self.new ≡ record self.old { pinned = max self.old.pinned (length log) }) result
            (bundle_log self.old.bundle s)) }
        ensures never_less { self.old.pinned ≤ self.new.pinned }
        ensures rest { self.new ≡ record self.old { pinned = self.new.pinned } }
        ensures unchanged { OnErr result (self.new ≡ self.old) }
        ensures session { IsSession self.new }
        ensures no_key { (h : TheHolderId) (key : AList ℕ) → self.old.bundle ≡ Holder h key → result ≢ Err ClientFault.WrongKey }
        ensures of_bytes { IfErr result IsOfBytes }
        ensures read_only { IsOnlyRead D.Disk disk.old disk.new }
        ensures counts { D.faults disk.old ≤ D.faults disk.new }
        ensures disk_fault { result ≡ Err ClientFault.DiskFault → D.faults disk.old < D.faults disk.new }
    {
        let count = count_batches(alloc, disk, &self.bundle)?;
        if self.pinned < count {
            self.pinned = count;
        }
        Ok(())
    }

    /// Reads one batch more. The disk is never written.
    ///
    /// The gate before the batch is read once more, and then `Damaged` and `Tampered` come as [`PublicLog::next`] says. Where the log
    /// ends there, on a disk that shows less than what was pinned, `Damaged` comes with the place of the batch's first byte. After
    /// any fault but want of memory the session has what it had; after that it may be spent. Of the batch's bytes nothing is kept.
    pub fn step<D: Disk>(&mut self, alloc: Global, disk: &mut D) -> Result<(), ClientFault>
        requires ready { IsTrue self.old.ready }
        requires more { length self.old.log.given < self.old.pinned }
        ensures one { WhereTold (D.shown disk.old)
            (λ s. AnswersBy (λ _ turn. self.new.log.given ≡ self.old.log.given ++ turn.placed ∷ []) result (next_batch self.old.log s)) }
        ensures known { WhereTold (D.shown disk.old) (λ s. AnswersBy (λ _ turn. (self.new.log.past ≡ turn.past)
            × (self.new.log.starts ≡ self.old.log.starts ++ (regated self.old.log s).past ∷ [])) result (next_batch self.old.log s)) }
        ensures counts_one { OnOk result (length self.new.log.given ≡ length self.old.log.given + 1) }
        ensures forgotten { OnOk result (self.new.log.leaf ≡ []) }
        ensures bundle { self.new.bundle ≡ self.old.bundle }
        ensures pinned { self.new.pinned ≡ self.old.pinned }
        ensures stays_ready { OnOk result (IsTrue self.new.ready) }
        ensures unchanged { result ≢ Err ClientFault.OutOfMemory → OnErr result (IsSameButGate self.old self.new) }
        ensures session { IsSession self.new }
        ensures no_key { result ≢ Err ClientFault.WrongKey }
        ensures of_bytes { IfErr result IsOfBytes }
        ensures read_only { IsOnlyRead D.Disk disk.old disk.new }
        ensures counts { D.faults disk.old ≤ D.faults disk.new }
        ensures disk_fault { result ≡ Err ClientFault.DiskFault → D.faults disk.old < D.faults disk.new }
    {
        let OneMore { placed, start } = read_one(alloc, disk, &mut self.log)?;
        let Some(reader) = self.reader.take() else {
            unreachable!()
        };
        self.reader = Some(reader.add(alloc, &placed, &start)?);
        Ok(())
    }

    /// What the bundle's key shows of the batches that are pinned, once all of them were read: what `Reader::view` shows of them. The
    /// disk is never written.
    pub fn show<D: Disk>(&self, alloc: Global, disk: &mut D) -> Result<List<Line>, ClientFault>
        requires ready { IsTrue self.now.ready }
        requires all_read { length self.now.log.given ≡ self.now.pinned }
        ensures answer { WhereTold (D.shown disk.old) (λ s. ShowsGiven self.now.log s
            → AnswersAs plain_view result (view_with self.now.bundle (Ok self.now.log.given))) }
        ensures seen { result ≢ Err ClientFault.Unseen }
        ensures read_only { IsOnlyRead D.Disk disk.old disk.new }
        ensures counts { D.faults disk.old ≤ D.faults disk.new }
        ensures disk_fault { result ≡ Err ClientFault.DiskFault → D.faults disk.old < D.faults disk.new }
    {
        let Some(reader) = &self.reader else {
            unreachable!()
        };
        reader.view(alloc, &self.log, disk, &self.bundle)
    }

    /// How many of the first batches are pinned.
    pub fn pinned(&self) -> u32
        ensures pinned { result ≡ self.now.pinned }
        ensures session { IsSession self.now }
    {
        self.pinned
    }

    /// How many of them were read.
    pub fn read(&self) -> u32
        ensures read { result ≡ length self.now.log.given }
        ensures session { IsSession self.now }
    {
        self.log.past().number()
    }
}

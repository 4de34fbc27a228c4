//! Reads a log to its end, and keeps of its batches what is asked for (docs/FORMAT.md, "Reading").
ghost use Rattle.std.specs.Prelude.{◌≡◌, ◌≢◌, ◌<◌, ◌≤◌, ℕ, [], Err, IfErr, IfOk, List, None, option_copied};
ghost use Rattle.commit_journal.specs.Placed.{PlainPlaced};
ghost use Rattle.commit_journal.specs.Places.{IsStanding};
ghost use Rattle.commit_journal.specs.Readers as readers;
ghost use Rattle.commit_journal.specs.Streaming.{IsReading, ShowsGiven};
ghost use Rattle.commit_journal.specs.declared.past.Past.{Past as ThePast};
ghost use Rattle.cry_base.specs.declared.client.Bundle.TheVariants.{Holder};
ghost use Rattle.cry_base.specs.declared.ids.HolderId.{HolderId as TheHolderId};
ghost use Rattle.cry_io.specs.Reading.{IsOnlyRead};
ghost use Rattle.cry_io.specs.Told.{WhereTold};
ghost use Rattle.holder_client.specs.Keeping.{ComesNext, ReadsOn, StartsOn};
ghost use Rattle.log_visits.specs.Answering.{Answers, IsOfBytes};
ghost use Rattle.log_visits.specs.Judging as spec;

use chacha_seal::{Key, OwnerK};
use commit_journal::{Past, Placed, PublicLog};
use cry_base::{Bundle, Mem};
use cry_io::Disk;
use log_visits::ClientFault;
use std::alloc::Global;

/// What is kept of a log, whose batches are added one after another.
pub trait Keeps: Drop {
    /// Whether these are the batches that were added.
    ghost has_read: { Self → List PlainPlaced → Type 0 };

    /// Whether this was known before each of them: what is kept may have it of some alone.
    ghost has_starts: { Self → List ThePast → Type 0 };

    /// What is kept of no batch.
    fn new(alloc: Global) -> Mem<Self>
        ensures read { IfOk result (λ kept. has_read kept []) }
        ensures starts { IfOk result (λ kept. has_starts kept []) };

    /// With the next batch added, and what [`PublicLog::past`](commit_journal::PublicLog::past) was before it. At `Err` what was kept is
    /// gone: half of a batch is never read.
    fn add(self, alloc: Global, placed: &Placed, start: &Past) -> Mem<Self>
        requires stands { IsStanding placed.now }
        requires next { ComesNext has_read self placed.now }
        ensures read { IfOk result (ReadsOn has_read self placed.now) }
        ensures starts { IfOk result (StartsOn has_starts self placed.now start.now) };
}

/// A log that was read to its end, and what was kept of it.
#[derive(Drop)]
pub struct ReadLog<K> {
    /// The log, behind its last batch. It reads each of them once more.
    pub log: PublicLog,
    /// What was kept of all its batches.
    pub kept: K,
}

/// Reads a log batch by batch up to its end, with the owner's key or without one.
fn read_batches<D: Disk, K: Keeps>(
    alloc: Global,
    disk: &mut D,
    owner: Option<&Key<OwnerK>>,
) -> Result<ReadLog<K>, ClientFault>
    ensures verdict { WhereTold (D.shown disk.old)
        (λ s. Answers (λ read. read.log.given) result (readers.read_log (readers.key_bytes (option_copied owner.entry)) s)) }
    ensures read { IfOk result (λ read. K.has_read read.kept read.log.given) }
    ensures starts { IfOk result (λ read. K.has_starts read.kept read.log.starts) }
    ensures reading { IfOk result (λ read. IsReading read.log.given read.log.starts read.log.past) }
    ensures shows { WhereTold (D.shown disk.old) (λ s. IfOk result (λ read. ShowsGiven read.log s)) }
    ensures no_key { option_copied owner.entry ≡ None → result ≢ Err ClientFault.WrongKey }
    ensures seen { result ≢ Err ClientFault.Unseen }
    ensures of_bytes { IfErr result IsOfBytes }
    ensures read_only { IsOnlyRead D.Disk disk.old disk.new }
    ensures counts { D.faults disk.old ≤ D.faults disk.new }
    ensures disk_fault { result ≡ Err ClientFault.DiskFault → D.faults disk.old < D.faults disk.new }
{
    let mut log = PublicLog::begin(alloc, disk, owner)?;
    let mut kept = K::new(alloc)?;
    let mut start = log.past();
    while let Some(placed) = log.next(alloc, disk)? {
        kept = kept.add(alloc, &placed, &start)?;
        start = log.past();
    }
    Ok(ReadLog { log, kept })
}

/// Reads a log to its end as the bundle's reader reads it, and keeps of it what is asked for. The disk is never written.
///
/// `NotAStore`, `Damaged` and `Tampered` come as `commit_journal::read_owner` says for the owner's bundle, and
/// `commit_journal::read_public` for a holder's; `WrongKey` of the header for the owner. A payload that doesn't fit what stands
/// before it is no fault here.
pub fn read_log<D: Disk, K: Keeps>(
    alloc: Global,
    disk: &mut D,
    bundle: &Bundle,
) -> Result<ReadLog<K>, ClientFault>
    ensures verdict { WhereTold (D.shown disk.old) (λ s. Answers (λ read. read.log.given) result (spec.bundle_log bundle.now s)) }
    ensures read { IfOk result (λ read. K.has_read read.kept read.log.given) }
    ensures starts { IfOk result (λ read. K.has_starts read.kept read.log.starts) }
    ensures reading { IfOk result (λ read. IsReading read.log.given read.log.starts read.log.past) }
    ensures shows { WhereTold (D.shown disk.old) (λ s. IfOk result (λ read. ShowsGiven read.log s)) }
    ensures no_key { (h : TheHolderId) (key : List ℕ) → bundle.now ≡ Holder h key → result ≢ Err ClientFault.WrongKey }
    ensures seen { result ≢ Err ClientFault.Unseen }
    ensures of_bytes { IfErr result IsOfBytes }
    ensures read_only { IsOnlyRead D.Disk disk.old disk.new }
    ensures counts { D.faults disk.old ≤ D.faults disk.new }
    ensures disk_fault { result ≡ Err ClientFault.DiskFault → D.faults disk.old < D.faults disk.new }
{
    match bundle {
        Bundle::Owner { key } => {
            let owner = Key::owner(*key);
            read_batches(alloc, disk, Some(&owner))
        }
        Bundle::Holder { .. } => read_batches(alloc, disk, None),
    }
}

//! Opening a store for writing: its log as the owner's key reads it, and the slots that a stop left empty
//! (docs/FORMAT.md, "Opening for writing").
ghost use Rattle.std.specs.Prelude.{◌≡◌, ◌⊎◌, ◌<◌, ◌≤◌, ◌+◌, ◌^◌, Err, drop, length, is_some, vec_len, IfOk, IfErr, OnErr, OnOk, All};
ghost use Rattle.std.specs.Option.{option_to_list};
ghost use Rattle.cry_base.specs.Layout.{batch_len, header_len};
ghost use Rattle.cry_base.specs.Limits.{most_store_bytes};
ghost use Rattle.cry_io.specs.Stops.{IsDurable};
ghost use Rattle.cry_io.specs.Told.{WhereTold, WhereBothTold};
ghost use Rattle.batch_log.specs.Moments.{FromThenOn, GoesOn};
ghost use Rattle.commit_journal.specs.Answering.{Answers};
ghost use Rattle.commit_journal.specs.Filling as filling;
ghost use Rattle.commit_journal.specs.Handing.{HandsOpening};
ghost use Rattle.commit_journal.specs.Logs.{AreInEpochs, epoch_behind};
ghost use Rattle.commit_journal.specs.Moments.{KeepsHeld, OpensInOrder, OpensThroughout};
ghost use Rattle.commit_journal.specs.Opening as opening;
ghost use Rattle.commit_journal.specs.Placed.{plain_log};
ghost use Rattle.commit_journal.specs.Places.{IsStanding};
ghost use Rattle.commit_journal.specs.Reading.{IsUntouched};
ghost use Rattle.cry_io.specs.Reading.{IsOnlyRead};
ghost use Rattle.commit_journal.specs.Turns.{plain_turn};
ghost use Rattle.commit_journal.specs.WholeLogs.{StillStand};

use crate::filling::{Unfilled, fill_slots, keep};
use crate::head::Head;
use crate::judge::Turn;
use crate::layout::{BATCH_LEN, OPEN};
use crate::owned::{OwnedTurn, judge_owned};
use crate::past::Past;
use crate::reading::{read_head, read_start};
use crate::{Journal, OpenFault, Placed};
use chacha_seal::{Key, LogKey, OwnerK};
use cry_base::{Limits, List, Mem};
use cry_io::Disk;
use std::alloc::Global;

/// A journal that was opened, and the batches of its log.
#[derive(Drop)]
pub struct Opened {
    /// What goes on behind the log. It has begun no epoch.
    pub journal: Journal,
    /// The batches before the first closed gate, in order.
    pub placed: List<Placed>,
}

/// The batches of a log, those of their slots that aren't their veil keys, and what is known behind the last batch. Where nobody but
/// the program wrote the store, one slot at most is kept, since a stop leaves no other one empty.
#[derive(Drop)]
struct Walked {
    placed: List<Placed>,
    unfilled: List<Unfilled>,
    past: Past,
}

fn read_owned_head<D: Disk>(disk: &mut D, limit: u64, past: &Past) -> Result<Head, OpenFault>
    requires small { past.now.at ≤ 2 ^ 32 }
    requires inside { past.now.at ≤ D.size_of disk.old }
    ensures answer { WhereTold (D.shown disk.old)
        (λ s. Answers (λ head. head) result (opening.owned_head limit past.now (drop past.now.at s))) }
    ensures inside { IfOk result (λ head. past.now.at + (batch_len + head.size) ≤ D.size_of disk.old) }
    ensures small { IfOk result (λ head. past.now.at + (batch_len + head.size) ≤ most_store_bytes) }
    ensures next { IfOk result (opening.IsNext past.now) }
    ensures read_only { IsOnlyRead D.Disk disk.old disk.new }
    ensures counts { D.faults disk.old ≤ D.faults disk.new }
    ensures disk_fault { result ≡ Err OpenFault.DiskFault → D.faults disk.old < D.faults disk.new }
{
    let head = read_head(disk, past)?;
    if past.at + (BATCH_LEN + u64::from(head.size)) > limit {
        return Err(OpenFault::Damaged { at: past.at });
    }
    Ok(head)
}

/// Makes a buffer at least so long. What stood in it means nothing, so a shorter one is given back before a longer one is taken.
fn lengthen(alloc: Global, buffer: &mut Vec<u8>, len: usize) -> Mem<()>
    ensures { OnOk result (len ≤ vec_len buffer.new) }
{
    if buffer.len() < len {
        *buffer = Vec::new(alloc);
        *buffer = Vec::from_elem(alloc, 0, len)?;
    }
    Ok(())
}

/// What stands behind an open gate, as its owner reads it. The batch is read into the front of the buffer, which is made longer where
/// the batch is, so that the memory it takes is no more than the disk backs.
fn read_owned<D: Disk>(
    alloc: Global,
    disk: &mut D,
    owner: &LogKey,
    limit: u64,
    past: &Past,
    buffer: &mut Vec<u8>,
) -> Result<OwnedTurn, OpenFault>
    requires behind { header_len ≤ past.now.at }
    requires small { past.now.at ≤ 2 ^ 32 }
    requires inside { past.now.at ≤ D.size_of disk.old }
    ensures answer { WhereTold (D.shown disk.old)
        (λ s. Answers (λ o. plain_turn o.turn) result (opening.owned_at limit owner.now.bytes past.now (drop past.now.at s))) }
    ensures unfilled { IfOk result (λ o. WhereTold (D.shown disk.old)
        (λ s. o.unfilled ≡ filling.unfilled_of owner.now.bytes (plain_turn o.turn).placed s)) }
    ensures within { IfOk result (λ o. All (filling.IsWithin (D.size_of disk.old)) (option_to_list o.unfilled)) }
    ensures next { IfOk result (λ o. opening.IsNextTurn past.now (D.size_of disk.old) o.turn) }
    ensures in_epoch { IfOk result (λ o. opening.IsTurnIn past.now (plain_turn o.turn)) }
    ensures stands { IfOk result (λ o. IsStanding o.turn.placed) }
    ensures read_only { IsOnlyRead D.Disk disk.old disk.new }
    ensures counts { D.faults disk.old ≤ D.faults disk.new }
    ensures disk_fault { result ≡ Err OpenFault.DiskFault → D.faults disk.old < D.faults disk.new }
{
    let head = read_owned_head(disk, limit, past)?;
    let len = BATCH_LEN as usize + head.size as usize;
    lengthen(alloc, buffer, len)?;
    let bytes = buffer.as_mut_slice();
    let batch = &mut bytes[..len];
    disk.read_at(past.at, batch)?;
    judge_owned(alloc, owner, past, &head, batch)
}

fn walk<D: Disk>(
    alloc: Global,
    disk: &mut D,
    owner: &LogKey,
    limit: u64,
) -> Result<Walked, OpenFault>
    ensures verdict { WhereTold (D.shown disk.old)
        (λ s. Answers opening.plain_walked result (opening.opening_verdict limit owner.now.bytes s)) }
    ensures stands { IfOk result (λ w. All IsStanding w.placed.items) }
    ensures unfilled { IfOk result (λ w. WhereTold (D.shown disk.old)
        (λ s. w.unfilled.items ≡ filling.unfilled_in owner.now.bytes (plain_log w.placed) s)) }
    ensures within { IfOk result (λ w. All (filling.IsWithin (D.size_of disk.old)) w.unfilled.items) }
    ensures gated { IfOk result (λ w. WhereTold (D.shown disk.old) (opening.AreGated header_len (plain_log w.placed))) }
    ensures room { IfOk result (λ w. opening.HasRoom w.past) }
    ensures end { IfOk result (λ w. w.past.at ≤ D.size_of disk.old) }
    ensures epochs { IfOk result (λ w. AreInEpochs 0 (plain_log w.placed)) }
    ensures count { IfOk result (λ w. w.past.number ≡ length w.placed.items) }
    ensures last { IfOk result (λ w. w.past.epoch.0 ≡ epoch_behind 0 (plain_log w.placed)) }
    ensures read_only { IsOnlyRead D.Disk disk.old disk.new }
    ensures counts { D.faults disk.old ≤ D.faults disk.new }
    ensures disk_fault { result ≡ Err OpenFault.DiskFault → D.faults disk.old < D.faults disk.new }
{
    let mut past = read_start(disk, owner)?;
    let mut log = List::new(alloc);
    let mut slots = List::new(alloc);
    let mut buffer = Vec::new(alloc);
    while past.gate == OPEN {
        let OwnedTurn {
            turn: Turn { placed, past: next },
            unfilled,
        } = read_owned(alloc, disk, owner, limit, &past, &mut buffer)?;
        log.push(placed)?;
        keep(&mut slots, unfilled)?;
        past = next;
    }
    Ok(Walked {
        placed: log,
        unfilled: slots,
        past,
    })
}

impl Journal {
    /// Opens a store for writing: syncs it, reads its log with the owner's key, and then writes each slot that doesn't hold
    /// its veil key, with a sync. The batches that are read may be unpublished, since a stop left them so.
    ///
    /// `NotAStore` and `WrongKey` come of the header. `Damaged` comes behind an open gate where no batch stands that ends
    /// within the store limit, with the place of its first byte, and for a payload that has no form, with the place of its
    /// first bad field. `Tampered` comes for a wrong owner tag, with its place. The first of these ends the call, before a
    /// slot is written, and leaves the disk as it was but for the sync. `DiskFault` comes only where the disk's faults rose in
    /// this call, and then slots alone may have been written, of a log that passes every test. After any fault bytes that stood
    /// for batches stand for them still.
    ///
    /// A stop at any moment of the call leaves what it could leave at the start, or the bytes that were shown then with some of these
    /// slots filled. So what the disk held between two lists of batches, it holds between them throughout. Whatever the call answers, the
    /// disk is handed these slots' veil keys and nothing else.
    pub fn open_owner<D: Disk>(
        alloc: Global,
        disk: &mut D,
        owner: &Key<OwnerK>,
        limits: Limits,
    ) -> Result<Opened, OpenFault>
        requires known { limits.store_bytes ≤ most_store_bytes }
        ensures verdict { WhereTold (D.shown disk.old)
            (λ s. Answers opening.plain_opened result (opening.opening_verdict limits.store_bytes owner.now.bytes s)) }
        ensures opened { IfOk result (λ o. opening.IsOpened owner.now.bytes limits.store_bytes o.journal) }
        ensures stands { IfOk result (λ o. All IsStanding o.placed.items) }
        ensures epochs { IfOk result (λ o. AreInEpochs 0 (plain_log o.placed)) }
        ensures count { IfOk result (λ o. o.journal.batches ≡ length o.placed.items) }
        ensures last { IfOk result (λ o. o.journal.epoch ≡ epoch_behind 0 (plain_log o.placed)) }
        ensures filled { IfOk result (λ o. WhereBothTold (D.shown disk.old) (D.shown disk.new)
            (λ x y. y ≡ opening.slots_filled owner.now.bytes (plain_log o.placed) x)) }
        ensures durable { OnOk result (IsDurable (D.may_leave disk.new) (D.shown disk.new)) }
        ensures inside { IfOk result (λ o. o.journal.end ≤ D.size_of disk.new) }
        ensures told { is_some (D.shown disk.new) ≡ is_some (D.shown disk.old) }
        ensures size { D.size_of disk.new ≡ D.size_of disk.old }
        ensures refused { IfErr result (λ fault. (fault ≡ OpenFault.DiskFault)
            ⊎ IsUntouched D.shown D.size_of D.may_leave disk.old disk.new) }
        ensures interrupted { OnErr result (WhereBothTold (D.shown disk.old) (D.shown disk.new)
            (opening.LeavesGated limits.store_bytes owner.now.bytes)) }
        ensures left { OnErr result (WhereBothTold (D.shown disk.old) (D.shown disk.new) (StillStand limits.store_bytes owner.now.bytes)) }
        ensures later { D.moment disk.old ≤ D.moment disk.new }
        ensures time { GoesOn (D.moment disk.old) (D.since disk.old) (D.since disk.new) }
        ensures stops { OpensThroughout limits.store_bytes owner.now.bytes (D.shown disk.old) (D.may_leave disk.old)
            (D.since disk.new (D.moment disk.old)) }
        ensures ordered { OpensInOrder limits.store_bytes owner.now.bytes (D.shown disk.old)
            (FromThenOn D.moment D.since disk.old disk.new) }
        ensures hands { HandsOpening limits.store_bytes owner.now.bytes (result ≡ Err OpenFault.DiskFault)
            (D.shown disk.old) (D.shown disk.new) (D.since disk.new (D.moment disk.old)) }
        ensures kept { KeepsHeld limits.store_bytes owner.now.bytes (D.shown disk.old) (D.may_leave disk.old)
            (D.since disk.new (D.moment disk.old)) }
        ensures counts { D.faults disk.old ≤ D.faults disk.new }
        ensures disk_fault { result ≡ Err OpenFault.DiskFault → D.faults disk.old < D.faults disk.new }
    {
        let owner = LogKey::of(owner);
        let Ok(()) = disk.sync() else {
            return Err(OpenFault::DiskFault);
        };
        let Walked {
            placed,
            unfilled,
            past,
        } = walk(alloc, disk, &owner, limits.store_bytes)?;
        let Ok(()) = fill_slots(disk, unfilled.as_slice()) else {
            return Err(OpenFault::DiskFault);
        };
        Ok(Opened {
            journal: Journal::behind(alloc, owner, past, limits.store_bytes),
            placed,
        })
    }
}

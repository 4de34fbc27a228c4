//! The slots that aren't their veil keys: they are found as the log is read, and written once all of it was judged
//! (docs/FORMAT.md, "Opening for writing").
ghost use Rattle.std.specs.Prelude.{◌≡◌, ◌≤◌, ◌+◌, [], ◌∷◌, ◌++◌, length, map, is_some, IsErr, OnErr, OnOk, All, option_to_list};
ghost use Rattle.cry_base.specs.Layout.{header_len, payload_offset, slot_offset};
ghost use Rattle.cry_base.specs.Limits.{most_store_bytes};
ghost use Rattle.cry_io.specs.Counts.{CountsFault};
ghost use Rattle.cry_io.specs.Stops.{IsDurable};
ghost use Rattle.cry_io.specs.Told.{WhereTold, WhereBothTold};
ghost use Rattle.batch_log.specs.Moments.{GoesOn, Throughout};
ghost use Rattle.commit_journal.specs.Filling as filling;
ghost use Rattle.commit_journal.specs.Handing.{Hands, slot_write};
ghost use Rattle.commit_journal.specs.Log as log;
ghost use Rattle.commit_journal.specs.Moments.{FillsSlot, FillsThroughout};
ghost use Rattle.commit_journal.specs.Opening as opening;

use crate::judge::array_at;
use crate::layout::{BATCH_LEN, SLOT};
use batch_log::unveil_found;
use cry_base::{List, Mem};
use cry_io::{Disk, Failed};
use hmac_seal::tags_equal;

/// A slot that isn't its veil key.
#[derive(Clone, Copy)]
pub(crate) struct Unfilled {
    /// Where it stands in the file.
    pub(crate) place: u64,
    /// What it is to hold.
    pub(crate) veil: [u8; 32],
}

/// The slot of a batch in memory that begins at this place of the file, if it isn't this veil key.
#[tactic(auto, unfolding(crate::specs::Filling::unfilled_slot))]
pub(crate) fn unfilled_slot(at: u64, veil: &[u8; 32], batch: &[u8]) -> Option<Unfilled>
    requires whole { payload_offset ≤ length batch.now }
    requires fits { at ≤ most_store_bytes }
    ensures { result ≡ filling.unfilled_slot (at + slot_offset) (log.slot_in batch.now) veil.now }
{
    let slot = array_at(batch, SLOT);
    if tags_equal(&slot, veil) {
        return None;
    }
    Some(Unfilled {
        place: at + SLOT as u64,
        veil: *veil,
    })
}

/// Keeps a slot behind others, if there is one.
pub(crate) fn keep(slots: &mut List<Unfilled>, slot: Option<Unfilled>) -> Mem<()>
    ensures { OnOk result (slots.new.items ≡ slots.old.items ++ option_to_list slot) }
{
    match slot {
        Some(slot) => slots.push(slot),
        None => Ok(()),
    }
}

fn fill_slot<D: Disk>(disk: &mut D, slot: &Unfilled) -> Result<(), Failed>
    requires within { filling.IsWithin (D.size_of disk.old) slot.now }
    requires unfilled { WhereTold (D.shown disk.old) (filling.IsUnfilled slot.now) }
    requires nothing_pending { IsDurable (D.may_leave disk.old) (D.shown disk.old) }
    ensures filled { OnOk result (WhereBothTold (D.shown disk.old) (D.shown disk.new)
        (λ x y. y ≡ opening.written_at slot.now.place slot.now.veil x)) }
    ensures left { OnErr result (WhereBothTold (D.shown disk.old) (D.shown disk.new)
        (opening.LeavesSlot slot.now.place slot.now.veil)) }
    ensures durable { OnOk result (IsDurable (D.may_leave disk.new) (D.shown disk.new)) }
    ensures later { D.moment disk.old ≤ D.moment disk.new }
    ensures time { GoesOn (D.moment disk.old) (D.since disk.old) (D.since disk.new) }
    ensures stops { WhereTold (D.shown disk.old)
        (λ x. Throughout (FillsSlot slot.now x) (D.since disk.new (D.moment disk.old))) }
    ensures hands { Hands (slot_write slot.now ∷ []) (IsErr result) (D.shown disk.old) (D.shown disk.new)
        (D.since disk.new (D.moment disk.old)) }
    ensures told { is_some (D.shown disk.new) ≡ is_some (D.shown disk.old) }
    ensures size { D.size_of disk.new ≡ D.size_of disk.old }
    ensures counts { CountsFault result (D.faults disk.old) (D.faults disk.new) }
{
    unveil_found(disk, slot.place - SLOT as u64, BATCH_LEN, &slot.veil)
}

/// Writes its veil key into each of these slots, one after another, with a sync. It takes no memory.
pub(crate) fn fill_slots<D: Disk>(disk: &mut D, slots: &[Unfilled]) -> Result<(), Failed>
    requires within { All (filling.IsWithin (D.size_of disk.old)) slots.now }
    requires unfilled { WhereTold (D.shown disk.old) (filling.AreUnfilled header_len slots.now) }
    requires nothing_pending { IsDurable (D.may_leave disk.old) (D.shown disk.old) }
    ensures filled { OnOk result (WhereBothTold (D.shown disk.old) (D.shown disk.new) (λ x y. y ≡ filling.all_filled slots.now x)) }
    ensures left { OnErr result (WhereBothTold (D.shown disk.old) (D.shown disk.new) (filling.LeavesUnfilled slots.now)) }
    ensures durable { OnOk result (IsDurable (D.may_leave disk.new) (D.shown disk.new)) }
    ensures later { D.moment disk.old ≤ D.moment disk.new }
    ensures time { GoesOn (D.moment disk.old) (D.since disk.old) (D.since disk.new) }
    ensures stops { FillsThroughout slots.now (D.shown disk.old) (D.since disk.new (D.moment disk.old)) }
    ensures hands { Hands (map slot_write slots.now) (IsErr result) (D.shown disk.old) (D.shown disk.new)
        (D.since disk.new (D.moment disk.old)) }
    ensures told { is_some (D.shown disk.new) ≡ is_some (D.shown disk.old) }
    ensures size { D.size_of disk.new ≡ D.size_of disk.old }
    ensures counts { CountsFault result (D.faults disk.old) (D.faults disk.new) }
{
    for slot in slots {
        fill_slot(disk, slot)?;
    }
    Ok(())
}

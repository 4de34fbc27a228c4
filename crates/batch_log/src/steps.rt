//! The steps of a commit. A batch that was staged is a `Staged`, of which `open_gate` makes a `Gated`, and `unveil` takes
//! a `Gated` alone: no slot is written before its gate is open on the disk. When a store is opened, `unveil_found` writes
//! the slot of a batch that stands behind an open gate.
ghost use Rattle.std.specs.Prelude.{◌≡◌, ◌+◌, ◌-◌, ◌<◌, ◌≤◌, ◌^◌, [], ◌∷◌, length, max, is_some, IfOk, IsErr, OnErr, OnOk};
ghost use Rattle.cry_base.specs.Layout.{payload_offset, slot_offset};
ghost use Rattle.cry_io.specs.Counts.{CountsFault};
ghost use Rattle.cry_io.specs.Told.{WhereTold, WhereBothTold};
ghost use Rattle.cry_io.specs.Stops.{IsDurable, Torn, Written};
ghost use Rattle.batch_log.specs.Handing.{Hands};
ghost use Rattle.batch_log.specs.Moments.{GoesOn, Throughout, TornInto};
ghost use Rattle.batch_log.specs.Steps as steps;

use crate::writing::write_and_sync;
use cry_io::{Disk, Failed};
use std::marker::Model;

/// The byte of an open gate.
pub const OPEN: u8 = 1;

/// The place of the slot in a batch.
const SLOT: u64 = 13;

/// A batch that stands behind the gate before the place `end`. It is not `Drop`: `open_gate` spends it, and so does its fault.
/// Contracts see the place and the batch.
pub struct Staged<'a> {
    end: u64,
    body: &'a [u8],
}

impl<'a> Model for Staged<'a> {
    ghost use Rattle.std.specs.Prelude.{◌≤◌};
    ghost use Rattle.batch_log.specs.Tokens.{StagedBatch};

    ghost Value = { StagedBatch };

    ghost view = { λ s. record { end = s.end; body = s.body.now } };

    ghost invariant = { λ s. 1 ≤ s.end };
}

/// A batch behind the open gate before the place `end`. It is not `Drop`: `unveil` spends it, and so does its fault. Contracts
/// see the place and the batch.
pub struct Gated<'a> {
    end: u64,
    body: &'a [u8],
}

impl<'a> Model for Gated<'a> {
    ghost use Rattle.std.specs.Prelude.{◌≤◌, length};
    ghost use Rattle.cry_base.specs.Layout.{payload_offset};
    ghost use Rattle.batch_log.specs.Tokens.{GatedBatch};

    ghost Value = { GatedBatch };

    ghost view = { λ g. record { end = g.end; body = g.body.now } };

    ghost invariant = { λ g. (1 ≤ g.end) × (payload_offset ≤ length g.body.now) };
}

/// Writes a batch behind the closed gate that ends the log at `end`, and makes it stay. What stands there is written over.
pub fn stage<'a, D: Disk>(disk: &mut D, end: u64, body: &'a [u8]) -> Result<Staged<'a>, Failed>
    requires gate { 1 ≤ end }
    requires inside { end ≤ D.size_of disk.old }
    requires fits { end + length body.now < 2 ^ 64 }
    requires body { steps.IsStageable body.now }
    ensures staged { IfOk result (λ staged. staged ≡ record { end = end; body = body.now }) }
    ensures told { is_some (D.shown disk.new) ≡ is_some (D.shown disk.old) }
    ensures written { OnOk result (WhereBothTold (D.shown disk.old) (D.shown disk.new) (Written end body.now)) }
    ensures torn { OnErr result (WhereBothTold (D.shown disk.old) (D.shown disk.new) (Torn end (length body.now))) }
    ensures durable { OnOk result (IsDurable (D.may_leave disk.new) (D.shown disk.new)) }
    ensures holds { OnOk result (WhereTold (D.shown disk.new) (steps.StandsAt end body.now)) }
    ensures closed { OnOk result (WhereBothTold (D.shown disk.old) (D.shown disk.new)
        (λ x y. steps.EndsAt end x → steps.IsStagedAt end body.now y)) }
    ensures size { OnOk result (D.size_of disk.new ≡ max (D.size_of disk.old) (end + length body.now)) }
    ensures no_shorter { D.size_of disk.old ≤ D.size_of disk.new }
    ensures later { D.moment disk.old ≤ D.moment disk.new }
    ensures time { GoesOn (D.moment disk.old) (D.since disk.old) (D.since disk.new) }
    ensures stops { IsDurable (D.may_leave disk.old) (D.shown disk.old) → WhereTold (D.shown disk.old)
        (λ x. Throughout (TornInto end (length body.now) x) (D.since disk.new (D.moment disk.old))) }
    ensures hands { Hands (record { place = end; bytes = body.now } ∷ []) (IsErr result) (D.shown disk.old) (D.shown disk.new)
        (D.since disk.new (D.moment disk.old)) }
    ensures counts { CountsFault result (D.faults disk.old) (D.faults disk.new) }
{
    write_and_sync(disk, end, body)?;
    Ok(Staged { end, body })
}

/// Opens the gate before a batch, and makes that stay. All of the batch has to stay by then: behind a gate that is open it counts.
pub fn open_gate<'a, D: Disk>(disk: &mut D, staged: Staged<'a>) -> Result<Gated<'a>, Failed>
    requires nothing_pending { IsDurable (D.may_leave disk.old) (D.shown disk.old) }
    requires stands { WhereTold (D.shown disk.old) (steps.StandsAt staged.end staged.body) }
    requires whole { payload_offset ≤ length staged.body }
    requires inside { staged.end + length staged.body ≤ D.size_of disk.old }
    ensures gated { IfOk result (λ gated. gated ≡ record { end = staged.entry.end; body = staged.entry.body }) }
    ensures told { is_some (D.shown disk.new) ≡ is_some (D.shown disk.old) }
    ensures written { OnOk result (WhereBothTold (D.shown disk.old) (D.shown disk.new) (Written (staged.entry.end - 1) (1 ∷ []))) }
    ensures torn { OnErr result (WhereBothTold (D.shown disk.old) (D.shown disk.new) (Torn (staged.entry.end - 1) 1)) }
    ensures durable { OnOk result (IsDurable (D.may_leave disk.new) (D.shown disk.new)) }
    ensures opened { OnOk result (WhereTold (D.shown disk.new) (steps.HoldsBatch staged.entry.end staged.entry.body)) }
    ensures size { D.size_of disk.new ≡ D.size_of disk.old }
    ensures later { D.moment disk.old ≤ D.moment disk.new }
    ensures time { GoesOn (D.moment disk.old) (D.since disk.old) (D.since disk.new) }
    ensures stops { WhereTold (D.shown disk.old)
        (λ x. Throughout (TornInto (staged.entry.end - 1) 1 x) (D.since disk.new (D.moment disk.old))) }
    ensures hands { Hands (record { place = staged.entry.end - 1; bytes = 1 ∷ [] } ∷ []) (IsErr result)
        (D.shown disk.old) (D.shown disk.new) (D.since disk.new (D.moment disk.old)) }
    ensures counts { CountsFault result (D.faults disk.old) (D.faults disk.new) }
{
    let Staged { end, body } = staged;
    let _size = disk.size();
    write_and_sync(disk, end - 1, &[OPEN])?;
    Ok(Gated { end, body })
}

/// Publishes a batch by its veil key, and makes that stay. Every list that a stop may leave has the open gate and the whole batch
/// behind it by then: what was published is not taken back.
pub fn unveil<D: Disk>(disk: &mut D, gated: Gated<'_>, veil: &[u8; 32]) -> Result<(), Failed>
    requires nothing_pending { IsDurable (D.may_leave disk.old) (D.shown disk.old) }
    requires opened { WhereTold (D.shown disk.old) (steps.HoldsBatch gated.end gated.body) }
    requires inside { gated.end + length gated.body ≤ D.size_of disk.old }
    ensures told { is_some (D.shown disk.new) ≡ is_some (D.shown disk.old) }
    ensures written { OnOk result (WhereBothTold (D.shown disk.old) (D.shown disk.new) (Written (gated.entry.end + slot_offset) veil.now)) }
    ensures torn { OnErr result (WhereBothTold (D.shown disk.old) (D.shown disk.new) (Torn (gated.entry.end + slot_offset) 32)) }
    ensures durable { OnOk result (IsDurable (D.may_leave disk.new) (D.shown disk.new)) }
    ensures size { D.size_of disk.new ≡ D.size_of disk.old }
    ensures later { D.moment disk.old ≤ D.moment disk.new }
    ensures time { GoesOn (D.moment disk.old) (D.since disk.old) (D.since disk.new) }
    ensures stops { WhereTold (D.shown disk.old)
        (λ x. Throughout (TornInto (gated.entry.end + slot_offset) 32 x) (D.since disk.new (D.moment disk.old))) }
    ensures hands { Hands (record { place = gated.entry.end + slot_offset; bytes = veil.now } ∷ []) (IsErr result)
        (D.shown disk.old) (D.shown disk.new) (D.since disk.new (D.moment disk.old)) }
    ensures counts { CountsFault result (D.faults disk.old) (D.faults disk.new) }
{
    let Gated { end, body } = gated;
    unveil_found(disk, end, body.len() as u64, veil)
}

/// Publishes a batch of so many bytes that was found behind the open gate before the place `end`, where a store is opened. Its gate is
/// seen and its slot is written in one call, so nothing comes in between.
pub fn unveil_found<D: Disk>(
    disk: &mut D,
    end: u64,
    len: u64,
    veil: &[u8; 32],
) -> Result<(), Failed>
    requires gate { 1 ≤ end }
    requires whole { payload_offset ≤ len }
    requires nothing_pending { IsDurable (D.may_leave disk.old) (D.shown disk.old) }
    requires opened { WhereTold (D.shown disk.old) (steps.IsGatedAt end len) }
    requires inside { end + len ≤ D.size_of disk.old }
    ensures told { is_some (D.shown disk.new) ≡ is_some (D.shown disk.old) }
    ensures written { OnOk result (WhereBothTold (D.shown disk.old) (D.shown disk.new) (Written (end + slot_offset) veil.now)) }
    ensures torn { OnErr result (WhereBothTold (D.shown disk.old) (D.shown disk.new) (Torn (end + slot_offset) 32)) }
    ensures durable { OnOk result (IsDurable (D.may_leave disk.new) (D.shown disk.new)) }
    ensures size { D.size_of disk.new ≡ D.size_of disk.old }
    ensures later { D.moment disk.old ≤ D.moment disk.new }
    ensures time { GoesOn (D.moment disk.old) (D.since disk.old) (D.since disk.new) }
    ensures stops { WhereTold (D.shown disk.old)
        (λ x. Throughout (TornInto (end + slot_offset) 32 x) (D.since disk.new (D.moment disk.old))) }
    ensures hands { Hands (record { place = end + slot_offset; bytes = veil.now } ∷ []) (IsErr result) (D.shown disk.old) (D.shown disk.new)
        (D.since disk.new (D.moment disk.old)) }
    ensures counts { CountsFault result (D.faults disk.old) (D.faults disk.new) }
{
    let _size = disk.size();
    write_and_sync(disk, end + SLOT, veil)
}

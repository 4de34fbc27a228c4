//! A batch joins the log: the three steps, one after another.
ghost use Rattle.std.specs.Prelude.{◌≡◌, ◌+◌, ◌<◌, ◌≤◌, ◌^◌, length, max, is_some, IsErr, OnErr, OnOk};
ghost use Rattle.cry_io.specs.Counts.{CountsFault};
ghost use Rattle.cry_io.specs.Told.{WhereTold, WhereBothTold};
ghost use Rattle.cry_io.specs.Stops.{IsDurable};
ghost use Rattle.batch_log.specs.Handing.{Hands, all_written, batch_writes};
ghost use Rattle.batch_log.specs.Moments.{FromThenOn, GoesOn, Throughout};
ghost use Rattle.batch_log.specs.Steps as steps;

use crate::steps::{open_gate, stage, unveil};
use cry_io::{Disk, Failed};

/// Commits a batch behind the closed gate that ends the log at `end`, with its veil key in its slot. What stands behind the log is
/// written over. It takes no memory.
///
/// `Failed` comes only where the disk's faults rose in this call. Then the gate before the batch is as it was, or the whole batch
/// stands behind it but for its slot. Where nothing was pending, such bytes are shown at each moment of the call, and a stop then leaves
/// such bytes too. Where its gate is shown open and its slot not zero, a stop from then on leaves the whole batch.
///
/// Whatever it answers, the disk is handed three writes and nothing else: the batch, the gate, the veil key.
pub fn append<D: Disk>(disk: &mut D, end: u64, batch: &[u8], veil: &[u8; 32]) -> Result<(), Failed>
    requires gate { 1 ≤ end }
    requires inside { end ≤ D.size_of disk.old }
    requires fits { end + length batch.now < 2 ^ 64 }
    requires batch { steps.IsStageable batch.now }
    ensures told { is_some (D.shown disk.new) ≡ is_some (D.shown disk.old) }
    ensures committed { OnOk result (WhereBothTold (D.shown disk.old) (D.shown disk.new) (steps.Commits end batch.now veil.now)) }
    ensures interrupted { OnErr result (WhereBothTold (D.shown disk.old) (D.shown disk.new) (steps.Interrupts end batch.now)) }
    ensures durable { OnOk result (IsDurable (D.may_leave disk.new) (D.shown disk.new)) }
    ensures size { OnOk result (D.size_of disk.new ≡ max (D.size_of disk.old) (end + length batch.now)) }
    ensures later { D.moment disk.old ≤ D.moment disk.new }
    ensures time { GoesOn (D.moment disk.old) (D.since disk.old) (D.since disk.new) }
    ensures stops { IsDurable (D.may_leave disk.old) (D.shown disk.old) → WhereTold (D.shown disk.old)
        (λ x. Throughout (λ s c. steps.Interrupts end batch.now x c) (D.since disk.new (D.moment disk.old))) }
    ensures shown { IsDurable (D.may_leave disk.old) (D.shown disk.old) → WhereTold (D.shown disk.old)
        (λ x. Throughout (λ s c. steps.Interrupts end batch.now x s) (D.since disk.new (D.moment disk.old))) }
    ensures written { OnOk result (WhereBothTold (D.shown disk.old) (D.shown disk.new)
        (λ x y. y ≡ all_written (batch_writes end batch.now veil.now) x)) }
    ensures hands { Hands (batch_writes end batch.now veil.now) (IsErr result) (D.shown disk.old) (D.shown disk.new)
        (D.since disk.new (D.moment disk.old)) }
    ensures ordered { IsDurable (D.may_leave disk.old) (D.shown disk.old) → WhereTold (D.shown disk.old)
        (λ x. steps.EndsAt end x → FromThenOn D.moment D.since disk.old disk.new (steps.IsHeldWhereShown end batch.now)) }
    ensures counts { CountsFault result (D.faults disk.old) (D.faults disk.new) }
{
    let staged = stage(disk, end, batch)?;
    let gated = open_gate(disk, staged)?;
    unveil(disk, gated, veil)
}

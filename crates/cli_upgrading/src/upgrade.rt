//! The command `upgrade`: the owner's line, then the store opened for writing, then its one batch, then the reply, in this order.
ghost use Rattle.std.specs.Prelude.{◌≡◌, ◌≢◌, ◌<◌, ◌≤◌, ℕ, [], IsTrue, List, None, Option, false, is_some, length};
ghost use Rattle.batch_log.specs.Moments.{FromThenOn};
ghost use Rattle.commit_journal.specs.Holding.{GoesOn};
ghost use Rattle.cry_base.specs.declared.commands.Reply.{Reply};
ghost use Rattle.cry_io.specs.Stops.{IsDurable};
ghost use Rattle.cry_io.specs.Told.{WhereBothTold};
ghost use Rattle.journal_bytes.specs.Bytes.{image_of};
ghost use Rattle.journal_bytes.specs.Script.{opened};
ghost use Rattle.public_fold.specs.Journal.{Journal};
ghost use Rattle.store_owner.specs.Sessions.{StandsAt};
ghost use Rattle.cli_base.specs.Promises.Any.{AnyEnds};
ghost use Rattle.cli_base.specs.Status.{is_before_print};
ghost use Rattle.cli_base.specs.World.{senses_of, world_of};
ghost use Rattle.cli_sessions.specs.Published.{LinesPublish};
ghost use Rattle.cli_sessions.specs.Sessions.{KeepsFrom, RanDry, seen_from, version_limits};
ghost use Rattle.cli_sessions.specs.Stopping.{LinesKeepUpTo};
ghost use Rattle.cli_upgrading.specs.Promises.Upgrade.{UpgradeEnds};
ghost use Rattle.cli_upgrading.specs.Upgrading.{AsksOwner, EndsUpgrade, HandedIn, PrintsReply, is_behind_opening};

use crate::telling::tell_reply;
use cli_base::input::{input_status, read_owner_line};
use cli_base::status::Status;
use cli_sessions::ends::apply_status;
use cli_sessions::opening::open_status;
use cli_sessions::version::{LIMITS, OLD_VERSION};
use cry_base::Steps;
use cry_io::{Disk, Sink, Source};
use std::alloc::Global;
use std::mem;
use store_owner::Owner;

/// Opens the store with the owner's key, which the one line of the input hands in, and makes it one of version 2, or prints that it is too
/// full for that. `AlreadyNew` tells that it is of version 2. All else is as for `run`: what tells why the store wasn't opened, or what
/// failed.
pub fn upgrade<S: Source, R: Source, D: Disk, W: Sink>(
    alloc: Global,
    input: &mut S,
    random: &mut R,
    disk: &mut D,
    out: &mut W,
) -> Status
    ensures ends { UpgradeEnds (senses_of S.Source R.Source D.Disk W.Sink) result
        (world_of input.old random.old disk.old out.old) (world_of input.new random.new disk.new out.new) }
    ensures any { AnyEnds (senses_of S.Source R.Source D.Disk W.Sink) result
        (world_of input.old random.old disk.old out.old) (world_of input.new random.new disk.new out.new) }
{
    match read_owner_line(alloc, input) {
        Ok(key) => open_and_upgrade::<S, R, D, W>(alloc, key, random, disk, out),
        Err(fault) => input_status(fault),
    }
}

/// Opens the store with the key that the input handed in, and upgrades it. `S` is that input's source, of which the promise speaks.
pub(crate) fn open_and_upgrade<S: Source, R: Source, D: Disk, W: Sink>(
    alloc: Global,
    key: [u8; 32],
    random: &mut R,
    disk: &mut D,
    out: &mut W,
) -> Status
    // Together with the input it is an upgrade.
    ensures upgrades { (first rest : S) → HandedIn S.Source key first rest → UpgradeEnds (senses_of S.Source R.Source D.Disk W.Sink) result
        (world_of first random.old disk.old out.old) (world_of rest random.new disk.new out.new) }
    ensures any { (rest : S) → AnyEnds (senses_of S.Source R.Source D.Disk W.Sink) result
        (world_of rest random.old disk.old out.old) (world_of rest random.new disk.new out.new) }
{
    match Owner::open_store(alloc, disk, key, LIMITS) {
        Ok(owner) => upgrade_store(alloc, owner, random, disk, out),
        Err(fault) => open_status(fault),
    }
}

/// Upgrades the store that was opened, and prints the reply.
fn upgrade_store<R: Source, D: Disk, W: Sink>(
    alloc: Global,
    mut owner: Owner,
    random: &mut R,
    disk: &mut D,
    out: &mut W,
) -> Status
    requires open { owner.journal.is_closed ≡ false }
    requires inside { owner.journal.end ≤ D.size_of disk.old }
    requires durable { IsDurable (D.may_leave disk.old) (D.shown disk.old) }
    ensures answers { IsTrue (is_behind_opening result) }
    ensures already { result ≡ Status.AlreadyNew
        → (owner.state.keys.version ≢ 1) × (random.new ≡ random.old) × (disk.new ≡ disk.old) × (out.new ≡ out.old) }
    ensures upgrades { result ≢ Status.AlreadyNew → owner.state.keys.version ≡ 1 }
    ensures asks { result ≢ Status.AlreadyNew → AsksOwner R.Source D.Disk W.Sink result owner random.old random.new disk.old disk.new
        out.old out.new }
    ensures ends { (key : List ℕ) (m : Journal) (was : Option (List ℕ)) →
        StandsAt version_limits key (opened m []) owner (D.shown disk.old) → KeepsFrom (length (image_of key m)) was (D.shown disk.old) →
        EndsUpgrade result key m
        (seen_from (R.left random.old) (R.left random.new) was (D.shown disk.new) (W.written out.old) (W.written out.new))
        (D.may_leave disk.new) (LinesKeepUpTo key m (D.shown disk.old) (D.shown disk.new) (D.since disk.new (D.moment disk.old))) }
    ensures published { (key : List ℕ) (m : Journal) → StandsAt version_limits key (opened m []) owner (D.shown disk.old)
        → LinesPublish key m (D.since disk.new (D.moment disk.old)) (FromThenOn D.moment D.since disk.old disk.new) }
    ensures later { D.moment disk.old ≤ D.moment disk.new }
    ensures time { GoesOn (D.moment disk.old) (D.since disk.old) (D.since disk.new) }
    ensures short { (left need : ℕ) → result ≡ Status.RandomShort left need → RanDry left need (R.left random.old) (R.left random.new) }
    ensures printed { (reply : Reply) × WhereBothTold (W.written out.old) (W.written out.new) (PrintsReply result reply) }
    ensures out_kept { IsTrue (is_before_print result) → out.new ≡ out.old }
    ensures calm { result ≢ Status.DiskFault → IsDurable (D.may_leave disk.new) (D.shown disk.new) }
    ensures random_fault { result ≡ Status.RandomFault → R.faults random.old < R.faults random.new }
    ensures disk_fault { result ≡ Status.DiskFault → D.faults disk.old < D.faults disk.new }
    ensures write_fault { result ≡ Status.WriteFault → W.faults out.old < W.faults out.new }
    ensures random_told { is_some (R.left random.new) ≡ is_some (R.left random.old) }
    ensures disk_told { is_some (D.shown disk.new) ≡ is_some (D.shown disk.old) }
    ensures out_told { is_some (W.written out.new) ≡ is_some (W.written out.old) }
    ensures random_counts { R.faults random.old ≤ R.faults random.new }
    ensures disk_counts { D.faults disk.old ≤ D.faults disk.new }
    ensures out_counts { W.faults out.old ≤ W.faults out.new }
{
    if owner.version() != OLD_VERSION {
        mem::forget(owner);
        return Status::AlreadyNew;
    }
    let upgraded = owner.upgrade(alloc, disk, random, &mut Steps::new());
    // The program ends behind this, as in `run`.
    mem::forget(owner);
    match upgraded {
        Ok(reply) => tell_reply(alloc, &reply, out),
        Err(fault) => apply_status(fault),
    }
}

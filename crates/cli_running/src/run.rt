//! The command `run`: the owner's line, then the store opened for writing, then each command's line answered before the next is
//! read, in this order.
ghost use Rattle.std.specs.Prelude.{◌≡◌, ◌≢◌, ◌⊎◌, ◌<◌, ◌≤◌, ℕ, [], List, Err, IfErr, None, Option, Some, false, is_some};
ghost use Rattle.std.specs.Prelude.{length, IsTrue};
ghost use Rattle.batch_log.specs.Moments.{FromThenOn};
ghost use Rattle.commit_journal.specs.Holding.{GoesOn};
ghost use Rattle.cry_base.specs.Requests.{Request};
ghost use Rattle.cry_io.specs.Stops.{IsDurable};
ghost use Rattle.cry_io.specs.Told.{WhereTold, WhereBothTold};
ghost use Rattle.log_visits.specs.Judging.{Failure};
ghost use Rattle.public_fold.specs.Journal.{Journal};
ghost use Rattle.journal_bytes.specs.Bytes.{image_of};
ghost use Rattle.journal_bytes.specs.Script.{opened};
ghost use Rattle.store_owner.specs.Sessions.{StandsAt};
ghost use Rattle.cli_base.specs.Lines.{IsUnended, bytes_ahead, lines_ahead};
ghost use Rattle.cli_base.specs.World.{senses_of, world_of};
ghost use Rattle.cli_sessions.specs.Published.{LinesPublish};
ghost use Rattle.cli_running.specs.FirstLine.{HandedIn};
ghost use Rattle.cli_running.specs.Promises.Run.{RunEnds};
ghost use Rattle.cli_running.specs.Published.{PublishesTyped};
ghost use Rattle.cli_running.specs.Running.{CountsOwner, EndsTyped, FirstIsBad, GivesOwner, HasBadLine, JudgesTyped};
ghost use Rattle.cli_running.specs.Running.{RanLines, RunsOpened, RunsUnopened, TellsVersion};
ghost use Rattle.cli_running.specs.Running.{ReadsWhole, ReadsWholeTyped, TakesBehindFirst, TakesTo, is_after_opening, is_before_opening};
ghost use Rattle.cli_running.specs.Running.{is_run_answer, key_in_lines, line_ended, lines_in, lines_typed};
ghost use Rattle.cli_sessions.specs.Sessions.{Ends, KeepsFrom, RanDry, seen_from, version_limits};
ghost use Rattle.cli_sessions.specs.Script.{IsReading, ReadsByCount};
ghost use Rattle.cli_sessions.specs.Stopping.{LinesKeepUpTo};
ghost use Rattle.cli_sessions.specs.Taking.{HoldsFew, TakesOne};
ghost use Rattle.cli_sessions.specs.Acting.{OwnerRan, place_of};
ghost use Rattle.cli_sessions.specs.Opening.{Judges};

use crate::key_line::read_owner;
use cli_base::lines::{LineReader, Next, NextFault};
use cli_base::status::Status;
use cli_sessions::ends::script_status;
use cli_sessions::opening::open_status;
use cli_sessions::script::{ScriptFault, run_lines};
use cli_sessions::version::{LIMITS, OLD_VERSION};
use cry_io::{Disk, Sink, Source};
use std::alloc::Global;
use std::mem;
use store_owner::Owner;

/// Opens the store with the owner's key, which the first line hands in, and applies the commands of the other lines, each answered before
/// the next is read. At `Done` all were; `BadScript` has the number of the line that is bad. `NotAStore`, `WrongKey`, `Damaged` and
/// `Tampered` tell why the store wasn't opened; `NeedsUpgrade` that it was, and is of version 1. `RandomShort` has how many random bytes
/// were left of those that a command needs. `ReadFault`, `RandomFault`, `DiskFault` and `WriteFault` tell what failed, and `OutOfMemory`
/// that memory was wanting; what was answered stands.
pub fn run<S: Source, R: Source, D: Disk, W: Sink>(
    alloc: Global,
    input: &mut S,
    random: &mut R,
    disk: &mut D,
    out: &mut W,
) -> Status
    ensures answers { IsTrue (is_run_answer result) }
    ensures first_line { WhereTold (S.left input.old) (λ typed. key_in_lines (lines_in typed) ≡ None → FirstIsBad result) }
    ensures judged { WhereTold (S.left input.old) (λ typed. WhereTold (D.shown disk.old) (λ image. JudgesTyped result typed image)) }
    ensures published { WhereTold (S.left input.old) (λ typed. PublishesTyped typed (D.shown disk.old) (D.may_leave disk.old)
        (FromThenOn D.moment D.since disk.old disk.new)) }
    ensures later { D.moment disk.old ≤ D.moment disk.new }
    ensures time { GoesOn (D.moment disk.old) (D.since disk.old) (D.since disk.new) }
    ensures lines { (asked : List Request) × (answered : ℕ) × RanLines result asked answered lines_typed (S.left input.old)
        (W.written out.old) (W.written out.new)
        × WhereBothTold (S.left input.old) (S.left input.new) (TakesTo (line_ended result answered))
        × (result ≡ Status.ReadFault → WhereBothTold (S.left input.old) (S.left input.new) (ReadsWholeTyped asked answered))
        × WhereTold (S.left input.old) (λ typed. EndsTyped result asked typed
        (seen_from (R.left random.old) (R.left random.new) (D.shown disk.old) (D.shown disk.new) (W.written out.old) (W.written out.new))
        (D.may_leave disk.old) (D.since disk.new (D.moment disk.old)) (D.may_leave disk.new))
        × (let see = senses_of S.Source R.Source D.Disk W.Sink in
        let before = world_of input.old random.old disk.old out.old in
        let after = world_of input.new random.new disk.new out.new in
        RunsUnopened see result asked answered before after ⊎ RunsOpened see result asked answered before after) }
    ensures bad_line { WhereTold (S.left input.old) (λ typed. HasBadLine (lines_typed typed) → result ≢ Status.Done) }
    ensures key_line { result ≡ Status.BadScript 1 → WhereTold (S.left input.old) (λ typed. key_in_lines (lines_in typed) ≡ None) }
    ensures short { (left need : ℕ) → result ≡ Status.RandomShort left need → RanDry left need (R.left random.old) (R.left random.new) }
    ensures read_to_end { result ≡ Status.Done → WhereTold (S.left input.new) (λ rest. rest ≡ []) }
    ensures stays { IsTrue (is_after_opening result) → IsDurable (D.may_leave disk.new) (D.shown disk.new) }
    ensures version { TellsVersion result (S.left input.old) (D.shown disk.old) }
    ensures unasked { result ≡ Status.NeedsUpgrade → (random.new ≡ random.old) × (out.new ≡ out.old) }
    ensures unopened { IsTrue (is_before_opening result) → (random.new ≡ random.old) × (disk.new ≡ disk.old) × (out.new ≡ out.old) }
    ensures read_fault { result ≡ Status.ReadFault → S.faults input.old < S.faults input.new }
    ensures random_fault { result ≡ Status.RandomFault → R.faults random.old < R.faults random.new }
    ensures disk_fault { result ≡ Status.DiskFault → D.faults disk.old < D.faults disk.new }
    ensures write_fault { result ≡ Status.WriteFault → W.faults out.old < W.faults out.new }
    ensures input_told { is_some (S.left input.new) ≡ is_some (S.left input.old) }
    ensures random_told { is_some (R.left random.new) ≡ is_some (R.left random.old) }
    ensures disk_told { is_some (D.shown disk.new) ≡ is_some (D.shown disk.old) }
    ensures out_told { is_some (W.written out.new) ≡ is_some (W.written out.old) }
    ensures input_counts { S.faults input.old ≤ S.faults input.new }
    ensures random_counts { R.faults random.old ≤ R.faults random.new }
    ensures disk_counts { D.faults disk.old ≤ D.faults disk.new }
    ensures out_counts { W.faults out.old ≤ W.faults out.new }
{
    let mut reader = LineReader::new(alloc);
    let key = match first_owner(alloc, &mut reader, input) {
        Ok(key) => key,
        Err(fault) => return script_status(fault),
    };
    open_and_apply(alloc, key, reader, input, random, disk, out)
}

/// Opens the store with the key that the first line handed in, and applies the commands of the lines that are still to come.
pub(crate) fn open_and_apply<S: Source, R: Source, D: Disk, W: Sink>(
    alloc: Global,
    key: [u8; 32],
    reader: LineReader,
    input: &mut S,
    random: &mut R,
    disk: &mut D,
    out: &mut W,
) -> Status
    requires second { reader.given ≡ 1 }
    // Together with the first line it is a run.
    ensures runs { (first : S) → HandedIn S.Source key reader first input.old → RunEnds (senses_of S.Source R.Source D.Disk W.Sink) result
        (world_of first random.old disk.old out.old) (world_of input.new random.new disk.new out.new) }
    ensures not_first { is_before_opening result ≡ false }
    ensures read_fault { result ≡ Status.ReadFault → S.faults input.old < S.faults input.new }
    ensures random_fault { result ≡ Status.RandomFault → R.faults random.old < R.faults random.new }
    ensures disk_fault { result ≡ Status.DiskFault → D.faults disk.old < D.faults disk.new }
    ensures write_fault { result ≡ Status.WriteFault → W.faults out.old < W.faults out.new }
    ensures input_told { is_some (S.left input.new) ≡ is_some (S.left input.old) }
    ensures random_told { is_some (R.left random.new) ≡ is_some (R.left random.old) }
    ensures disk_told { is_some (D.shown disk.new) ≡ is_some (D.shown disk.old) }
    ensures out_told { is_some (W.written out.new) ≡ is_some (W.written out.old) }
    ensures input_counts { S.faults input.old ≤ S.faults input.new }
    ensures random_counts { R.faults random.old ≤ R.faults random.new }
    ensures disk_counts { D.faults disk.old ≤ D.faults disk.new }
    ensures out_counts { W.faults out.old ≤ W.faults out.new }
{
    match Owner::open_store(alloc, disk, key, LIMITS) {
        Ok(owner) => apply_lines(alloc, reader, input, owner, random, disk, out),
        Err(fault) => open_status(fault),
    }
}

/// The owner's key that the first line hands in. Any other line is bad, and so is an empty input's first: `BadLine` comes with number 1.
/// `ReadFault` tells that the input failed, and `OutOfMemory` that memory was wanting. Little is read past the line.
pub fn first_owner<S: Source>(
    alloc: Global,
    reader: &mut LineReader,
    input: &mut S,
) -> Result<[u8; 32], ScriptFault>
    ensures told { is_some (S.left input.new) ≡ is_some (S.left input.old) }
    ensures gives { WhereBothTold (S.left input.old) (S.left input.new)
        (λ before after. GivesOwner result (lines_ahead reader.old before) (lines_ahead reader.new after)) }
    ensures takes { WhereBothTold (S.left input.old) (S.left input.new) (TakesOne result reader.old reader.new) }
    ensures count { CountsOwner result reader.old.given reader.new.given }
    ensures faults { IfErr result IsReading }
    ensures unended { result ≡ Err ScriptFault.ReadFault → IsUnended reader.new }
    ensures counts { ReadsByCount result (S.faults input.old) (S.faults input.new) }
{
    match reader.next_line(alloc, input) {
        Ok(Next::Line { bytes, .. }) => match read_owner(bytes.as_slice()) {
            Some(key) => Ok(key),
            None => Err(ScriptFault::BadLine { line: 1 }),
        },
        Ok(Next::End) => Err(ScriptFault::BadLine { line: 1 }),
        Ok(Next::PastLimit { .. }) => Err(ScriptFault::BadLine { line: 1 }),
        Err(NextFault::Failed) => Err(ScriptFault::ReadFault),
        Err(NextFault::OutOfMemory) => Err(ScriptFault::OutOfMemory),
    }
}

/// Applies the commands of the lines that are still to come, by the owner of the store that was opened. One of version 1 takes none.
fn apply_lines<S: Source, R: Source, D: Disk, W: Sink>(
    alloc: Global,
    mut reader: LineReader,
    input: &mut S,
    mut owner: Owner,
    random: &mut R,
    disk: &mut D,
    out: &mut W,
) -> Status
    requires open { owner.journal.is_closed ≡ false }
    requires inside { owner.journal.end ≤ D.size_of disk.old }
    requires durable { IsDurable (D.may_leave disk.old) (D.shown disk.old) }
    requires second { reader.given ≡ 1 }
    ensures answers { IsTrue (is_run_answer result) }
    ensures published { (key : List ℕ) (m : Journal) → StandsAt version_limits key (opened m []) owner (D.shown disk.old)
        → LinesPublish key m (D.since disk.new (D.moment disk.old)) (FromThenOn D.moment D.since disk.old disk.new) }
    ensures later { D.moment disk.old ≤ D.moment disk.new }
    ensures time { GoesOn (D.moment disk.old) (D.since disk.old) (D.since disk.new) }
    ensures lines { (asked : List Request) × (answered : ℕ) × RanLines result asked answered (lines_ahead reader) (S.left input.old)
        (W.written out.old) (W.written out.new)
        × (HoldsFew reader → WhereBothTold (S.left input.old) (S.left input.new)
        (TakesBehindFirst (bytes_ahead reader) (line_ended result answered)))
        × (result ≡ Status.ReadFault → WhereBothTold (S.left input.old) (S.left input.new)
        (λ before after. ReadsWhole asked answered (lines_ahead reader before) (bytes_ahead reader before) after))
        × WhereTold (S.left input.old) (λ left. (key : List ℕ) (m : Journal) (was : Option (List ℕ)) →
        StandsAt version_limits key (opened m []) owner (D.shown disk.old) → KeepsFrom (length (image_of key m)) was (D.shown disk.old) →
        Ends result version_limits key m asked (lines_ahead reader left)
        (seen_from (R.left random.old) (R.left random.new) was (D.shown disk.new) (W.written out.old) (W.written out.new))
        (D.may_leave disk.new) (LinesKeepUpTo key m (D.shown disk.old) (D.shown disk.new) (D.since disk.new (D.moment disk.old))))
        × (result ≢ Status.NeedsUpgrade → OwnerRan result asked answered (lines_ahead reader) (S.left input.old)
        (place_of owner (R.left random.old) (D.shown disk.old)) (R.left random.new) (D.shown disk.new) (W.written out.old)
        (W.written out.new)) }
    ensures short { (left need : ℕ) → result ≡ Status.RandomShort left need → RanDry left need (R.left random.old) (R.left random.new) }
    ensures none_of_bytes { (verdict : Option Failure) → verdict ≡ None → Judges result verdict }
    ensures needs { result ≡ Status.NeedsUpgrade
        → (owner.state.keys.version ≡ 1) × (random.new ≡ random.old) × (disk.new ≡ disk.old) × (out.new ≡ out.old) }
    ensures new { result ≢ Status.NeedsUpgrade → owner.state.keys.version ≢ 1 }
    ensures read_to_end { result ≡ Status.Done → WhereTold (S.left input.new) (λ rest. rest ≡ []) }
    ensures stays { IsTrue (is_after_opening result) → IsDurable (D.may_leave disk.new) (D.shown disk.new) }
    ensures calm { result ≢ Status.DiskFault → IsDurable (D.may_leave disk.new) (D.shown disk.new) }
    ensures not_first { is_before_opening result ≡ false }
    ensures read_fault { result ≡ Status.ReadFault → S.faults input.old < S.faults input.new }
    ensures random_fault { result ≡ Status.RandomFault → R.faults random.old < R.faults random.new }
    ensures disk_fault { result ≡ Status.DiskFault → D.faults disk.old < D.faults disk.new }
    ensures write_fault { result ≡ Status.WriteFault → W.faults out.old < W.faults out.new }
    ensures input_told { is_some (S.left input.new) ≡ is_some (S.left input.old) }
    ensures random_told { is_some (R.left random.new) ≡ is_some (R.left random.old) }
    ensures disk_told { is_some (D.shown disk.new) ≡ is_some (D.shown disk.old) }
    ensures out_told { is_some (W.written out.new) ≡ is_some (W.written out.old) }
    ensures input_counts { S.faults input.old ≤ S.faults input.new }
    ensures random_counts { R.faults random.old ≤ R.faults random.new }
    ensures disk_counts { D.faults disk.old ≤ D.faults disk.new }
    ensures out_counts { W.faults out.old ≤ W.faults out.new }
{
    if owner.version() == OLD_VERSION {
        mem::forget(owner);
        return Status::NeedsUpgrade;
    }
    let ran = run_lines(alloc, &mut reader, input, &mut owner, random, disk, out);
    // The program ends behind this: the system takes all memory back at once, and not a key and a name at a time.
    mem::forget(owner);
    match ran {
        Ok(()) => Status::Done,
        Err(fault) => script_status(fault),
    }
}

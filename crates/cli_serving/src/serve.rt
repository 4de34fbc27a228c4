//! The command `serve`: the owner's line, then the store opened for writing, then each line answered before the next is read, in this
//! order. The owner's lines are answered as `run` answers them; sessions are begun, in which readers stay who read the log batch by batch.
ghost use Rattle.std.specs.Prelude.{◌≡◌, ◌≢◌, ◌⊎◌, ◌<◌, ◌≤◌, ℕ, [], List, None, Option, IsTrue, false, is_some, length};
ghost use Rattle.batch_log.specs.Moments.{FromThenOn};
ghost use Rattle.commit_journal.specs.Holding.{GoesOn};
ghost use Rattle.cry_base.specs.Requests.{Request};
ghost use Rattle.cry_io.specs.Reading.{IsOnlyRead};
ghost use Rattle.cry_io.specs.Stops.{IsDurable};
ghost use Rattle.cry_io.specs.Told.{WhereTold, WhereBothTold};
ghost use Rattle.journal_bytes.specs.Bytes.{image_of};
ghost use Rattle.journal_bytes.specs.Script.{opened};
ghost use Rattle.public_fold.specs.Journal.{Journal};
ghost use Rattle.script_text.specs.Seats.{Turn};
ghost use Rattle.store_owner.specs.Sessions.{StandsAt};
ghost use Rattle.cli_base.specs.Lines.{bytes_ahead, lines_ahead};
ghost use Rattle.cli_base.specs.World.{senses_of, world_of};
ghost use Rattle.cli_running.specs.FirstLine.{HandedIn};
ghost use Rattle.cli_running.specs.Running.{TakesBehindFirst, is_after_opening, is_before_opening, is_run_answer};
ghost use Rattle.cli_sessions.specs.Acting.{place_of};
ghost use Rattle.cli_sessions.specs.Opening.{Judges};
ghost use Rattle.cli_sessions.specs.Published.{LinesPublish};
ghost use Rattle.cli_sessions.specs.Sessions.{KeepsFrom, RanDry, seen_from, version_limits};
ghost use Rattle.cli_sessions.specs.Stopping.{LinesKeepUpTo};
ghost use Rattle.cli_sessions.specs.Taking.{HoldsFew};
ghost use Rattle.cli_serving.specs.Lines.{AskNoOwner, BeginsLines, ReadsAll, turn_ended};
ghost use Rattle.cli_serving.specs.Promises.Serve.{IsOfReading, ServeEnds, TurnsRan};
ghost use Rattle.cli_serving.specs.Serves.{Serves};

use crate::ends::serve_status;
use crate::turns::serve_lines;
use cli_base::lines::LineReader;
use cli_base::status::Status;
use cli_running::run::first_owner;
use cli_sessions::ends::script_status;
use cli_sessions::opening::open_status;
use cli_sessions::version::{LIMITS, OLD_VERSION};
use cry_io::{Disk, Sink, Source};
use std::alloc::Global;
use std::mem;
use store_owner::Owner;

/// Opens the store with the owner's key, which the first line hands in, and answers the other lines, each before the next is read: the
/// owner's as `run` does, and those of sessions, which only read. Sessions are numbered from 1, and 256 may stand; they end with the call.
///
/// It ends as `run` does; and where a session's reading fails. Then `NotAStore`, `Damaged` and `Tampered` tell what is wrong with the
/// log's bytes, `DiskFault` that the disk failed, and `OutOfMemory` that memory was wanting. What was answered before stands.
pub fn serve<S: Source, R: Source, D: Disk, W: Sink>(
    alloc: Global,
    input: &mut S,
    random: &mut R,
    disk: &mut D,
    out: &mut W,
) -> Status
    ensures answers { IsTrue (is_run_answer result) }
    ensures ends { ServeEnds (senses_of S.Source R.Source D.Disk W.Sink) result
        (world_of input.old random.old disk.old out.old) (world_of input.new random.new disk.new out.new) }
    ensures read_fault { result ≡ Status.ReadFault → S.faults input.old < S.faults input.new }
    ensures random_fault { result ≡ Status.RandomFault → R.faults random.old < R.faults random.new }
    ensures disk_fault { result ≡ Status.DiskFault → D.faults disk.old < D.faults disk.new }
    ensures write_fault { result ≡ Status.WriteFault → W.faults out.old < W.faults out.new }
    ensures input_told { is_some (S.left input.new) ≡ is_some (S.left input.old) }
    ensures random_told { is_some (R.left random.new) ≡ is_some (R.left random.old) }
    ensures disk_told { is_some (D.shown disk.new) ≡ is_some (D.shown disk.old) }
    ensures out_told { is_some (W.written out.new) ≡ is_some (W.written out.old) }
    ensures input_counts { S.faults input.old ≤ S.faults input.new }
    ensures random_counts { R.faults random.old ≤ R.faults random.new }
    ensures disk_counts { D.faults disk.old ≤ D.faults disk.new }
    ensures out_counts { W.faults out.old ≤ W.faults out.new }
{
    let mut reader = LineReader::new(alloc);
    let key = match first_owner(alloc, &mut reader, input) {
        Ok(key) => key,
        Err(fault) => return script_status(fault),
    };
    open_and_serve(alloc, key, reader, input, random, disk, out)
}

/// Opens the store with the key that the first line handed in, and answers the lines that are still to come.
fn open_and_serve<S: Source, R: Source, D: Disk, W: Sink>(
    alloc: Global,
    key: [u8; 32],
    reader: LineReader,
    input: &mut S,
    random: &mut R,
    disk: &mut D,
    out: &mut W,
) -> Status
    requires second { reader.given ≡ 1 }
    // Together with the first line it is a call of `serve`.
    ensures serves { (first : S) → HandedIn S.Source key reader first input.old → ServeEnds (senses_of S.Source R.Source D.Disk W.Sink)
        result (world_of first random.old disk.old out.old) (world_of input.new random.new disk.new out.new) }
    ensures answers { IsTrue (is_run_answer result) }
    ensures read_fault { result ≡ Status.ReadFault → S.faults input.old < S.faults input.new }
    ensures random_fault { result ≡ Status.RandomFault → R.faults random.old < R.faults random.new }
    ensures disk_fault { result ≡ Status.DiskFault → D.faults disk.old < D.faults disk.new }
    ensures write_fault { result ≡ Status.WriteFault → W.faults out.old < W.faults out.new }
    ensures input_told { is_some (S.left input.new) ≡ is_some (S.left input.old) }
    ensures random_told { is_some (R.left random.new) ≡ is_some (R.left random.old) }
    ensures disk_told { is_some (D.shown disk.new) ≡ is_some (D.shown disk.old) }
    ensures out_told { is_some (W.written out.new) ≡ is_some (W.written out.old) }
    ensures input_counts { S.faults input.old ≤ S.faults input.new }
    ensures random_counts { R.faults random.old ≤ R.faults random.new }
    ensures disk_counts { D.faults disk.old ≤ D.faults disk.new }
    ensures out_counts { W.faults out.old ≤ W.faults out.new }
{
    match Owner::open_store(alloc, disk, key, LIMITS) {
        Ok(owner) => serve_opened(alloc, reader, input, owner, random, disk, out),
        Err(fault) => open_status(fault),
    }
}

/// Answers the lines that are still to come, by the owner of the store that was opened and by sessions over it. One of version 1 takes
/// none.
fn serve_opened<S: Source, R: Source, D: Disk, W: Sink>(
    alloc: Global,
    mut reader: LineReader,
    input: &mut S,
    mut owner: Owner,
    random: &mut R,
    disk: &mut D,
    out: &mut W,
) -> Status
    requires open { owner.journal.is_closed ≡ false }
    requires inside { owner.journal.end ≤ D.size_of disk.old }
    requires durable { IsDurable (D.may_leave disk.old) (D.shown disk.old) }
    requires second { reader.given ≡ 1 }
    ensures answers { IsTrue (is_run_answer result) }
    ensures published { (key : List ℕ) (m : Journal) → StandsAt version_limits key (opened m []) owner (D.shown disk.old)
        → LinesPublish key m (D.since disk.new (D.moment disk.old)) (FromThenOn D.moment D.since disk.old disk.new) }
    ensures later { D.moment disk.old ≤ D.moment disk.new }
    ensures time { GoesOn (D.moment disk.old) (D.since disk.old) (D.since disk.new) }
    ensures lines { (turns : List Turn) × (asked : List Request)
        × WhereTold (S.left input.old) (λ left. BeginsLines result turns (lines_ahead reader left))
        × (HoldsFew reader → WhereBothTold (S.left input.old) (S.left input.new)
        (TakesBehindFirst (bytes_ahead reader) (turn_ended result (length turns))))
        × (result ≡ Status.ReadFault → WhereBothTold (S.left input.old) (S.left input.new)
        (λ before after. ReadsAll turns (lines_ahead reader before) (bytes_ahead reader before) after))
        × ((key : List ℕ) (m : Journal) (was : Option (List ℕ)) → StandsAt version_limits key (opened m []) owner (D.shown disk.old)
        → KeepsFrom (length (image_of key m)) was (D.shown disk.old) → Serves result version_limits key m turns asked
        (seen_from (R.left random.old) (R.left random.new) was (D.shown disk.new) (W.written out.old) (W.written out.new))
        (D.may_leave disk.new) (LinesKeepUpTo key m (D.shown disk.old) (D.shown disk.new) (D.since disk.new (D.moment disk.old))))
        × (result ≢ Status.NeedsUpgrade → TurnsRan result turns asked (place_of owner (R.left random.old) (D.shown disk.old))
        (R.left random.new) (D.shown disk.new) (W.written out.old) (W.written out.new))
        × (Judges result None ⊎ IsOfReading result turns)
        × (AskNoOwner turns → (random.new ≡ random.old) × IsOnlyRead D.Disk disk.old disk.new) }
    ensures short { (left need : ℕ) → result ≡ Status.RandomShort left need → RanDry left need (R.left random.old) (R.left random.new) }
    ensures needs { result ≡ Status.NeedsUpgrade
        → (owner.state.keys.version ≡ 1) × (random.new ≡ random.old) × (disk.new ≡ disk.old) × (out.new ≡ out.old) }
    ensures new { result ≢ Status.NeedsUpgrade → owner.state.keys.version ≢ 1 }
    ensures read_to_end { result ≡ Status.Done → WhereTold (S.left input.new) (λ rest. rest ≡ []) }
    ensures stays { IsTrue (is_after_opening result) → IsDurable (D.may_leave disk.new) (D.shown disk.new) }
    ensures calm { result ≢ Status.DiskFault → IsDurable (D.may_leave disk.new) (D.shown disk.new) }
    ensures not_first { is_before_opening result ≡ false }
    ensures read_fault { result ≡ Status.ReadFault → S.faults input.old < S.faults input.new }
    ensures random_fault { result ≡ Status.RandomFault → R.faults random.old < R.faults random.new }
    ensures disk_fault { result ≡ Status.DiskFault → D.faults disk.old < D.faults disk.new }
    ensures write_fault { result ≡ Status.WriteFault → W.faults out.old < W.faults out.new }
    ensures input_told { is_some (S.left input.new) ≡ is_some (S.left input.old) }
    ensures random_told { is_some (R.left random.new) ≡ is_some (R.left random.old) }
    ensures disk_told { is_some (D.shown disk.new) ≡ is_some (D.shown disk.old) }
    ensures out_told { is_some (W.written out.new) ≡ is_some (W.written out.old) }
    ensures input_counts { S.faults input.old ≤ S.faults input.new }
    ensures random_counts { R.faults random.old ≤ R.faults random.new }
    ensures disk_counts { D.faults disk.old ≤ D.faults disk.new }
    ensures out_counts { W.faults out.old ≤ W.faults out.new }
{
    if owner.version() == OLD_VERSION {
        mem::forget(owner);
        return Status::NeedsUpgrade;
    }
    let served = serve_lines(alloc, &mut reader, input, &mut owner, random, disk, out);
    // The program ends behind this: the system takes all memory back at once, and not a key and a name at a time.
    mem::forget(owner);
    match served {
        Ok(()) => Status::Done,
        Err(fault) => serve_status(fault),
    }
}

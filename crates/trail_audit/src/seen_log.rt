//! What right keys show of a log, of short contents that were kept and of batches that are read once more (docs/FORMAT.md, "Reading").
ghost use Rattle.std.specs.Prelude.{◌≡◌, ◌≢◌, ◌+◌, ◌<◌, ◌≤◌, [], Err, MatchResult, Ok, Some, length, map};
ghost use Rattle.std.specs.List.{slice_get};
ghost use Rattle.cry_io.specs.Told.{WhereTold};
ghost use Rattle.commit_journal.specs.Placed.{PlainPlaced};
ghost use Rattle.cry_io.specs.Reading.{IsOnlyRead};
ghost use Rattle.commit_journal.specs.Streaming.{IsStart, ShowsGiven, again_in};
ghost use Rattle.log_visits.specs.Placing.{body_contents, log_contents};
ghost use Rattle.trail_audit.specs.Derived.{AreSeen, RereadFault, plain_seen};
ghost use Rattle.trail_audit.specs.Grouped.{HasGroups, key_source};
ghost use Rattle.trail_audit.specs.Kept.{KeepsStarts};
ghost use Rattle.trail_audit.specs.Seals.{AreSeals, AreSealsOf};

use crate::Seen;
use crate::contents::see_contents;
use crate::placed_records::contents_of;
use crate::seals::{Seals, may_show, seals_at};
use crate::trails::KnownKeys;
use commit_journal::{Past, PublicLog};
use cry_base::List;
use cry_io::Disk;
use log_visits::ClientFault;
use std::alloc::Global;

/// Reads a batch once more, opens its contents, and adds what they show. Where they can show nothing, or its content was kept, it
/// isn't read.
fn see_batch<D: Disk>(
    alloc: Global,
    disk: &mut D,
    log: &PublicLog,
    start: &Past,
    seals: &Seals,
    known: &KnownKeys,
    seen: &mut List<Seen>,
) -> Result<(), ClientFault>
    requires given { IsStart log.now start.now }
    requires grouped { HasGroups key_source known.now.groups known.now.keys.items }
    ensures answer { WhereTold (D.shown disk.old) (λ s. (p : PlainPlaced) → again_in log.now (start.now.number + 1) s ≡ Ok p
        → AreSeals seals.now (body_contents p.batch p.place p.body) →
        MatchResult result (λ _. AreSeen known.now.keys.items (body_contents p.batch p.place p.body) (map plain_seen seen.old.items)
        (map plain_seen seen.new.items))
        (RereadFault (body_contents p.batch p.place p.body) known.now.keys.items)) }
    ensures unseen { result ≢ Err ClientFault.Unseen }
    ensures read_only { IsOnlyRead D.Disk disk.old disk.new }
    ensures counts { D.faults disk.old ≤ D.faults disk.new }
    ensures disk_fault { result ≡ Err ClientFault.DiskFault → D.faults disk.old < D.faults disk.new }
{
    if let Seals::Short(content) = seals {
        return see_contents(alloc, &[content.placed()], known, seen);
    }
    if !may_show(&known.groups, seals) {
        return Ok(());
    }
    let placed = log.again(alloc, disk, start)?;
    let contents = contents_of(alloc, &placed)?;
    see_contents(alloc, contents.as_slice(), known, seen)
}

/// What was known before the batch at a position.
fn start_at(starts: &[Past], position: u32) -> &Past
    requires { position < length starts.now }
    ensures { slice_get starts.now position ≡ Some result.now }
{
    &starts[position as usize]
}

/// Opens the contents of a log of so many batches, which are sealed so and before which that was known, and gives what they show.
pub(crate) fn see_log<D: Disk>(
    alloc: Global,
    disk: &mut D,
    log: &PublicLog,
    last: u32,
    seals: &[Seals],
    starts: &[Past],
    known: &KnownKeys,
) -> Result<List<Seen>, ClientFault>
    requires last { last ≡ length log.now.given }
    requires starts { KeepsStarts starts.now log.now }
    requires seals { AreSealsOf seals.now log.now.given }
    requires grouped { HasGroups key_source known.now.groups known.now.keys.items }
    ensures answer { WhereTold (D.shown disk.old) (λ s. ShowsGiven log.now s →
        MatchResult result (λ seen. AreSeen known.now.keys.items (log_contents log.now.given) [] (map plain_seen seen.items))
        (RereadFault (log_contents log.now.given) known.now.keys.items)) }
    ensures unseen { result ≢ Err ClientFault.Unseen }
    ensures read_only { IsOnlyRead D.Disk disk.old disk.new }
    ensures counts { D.faults disk.old ≤ D.faults disk.new }
    ensures disk_fault { result ≡ Err ClientFault.DiskFault → D.faults disk.old < D.faults disk.new }
{
    let mut seen = List::new(alloc);
    let mut done = 0;
    while done < last {
        let sealed = seals_at(seals, done);
        let start = start_at(starts, done);
        see_batch(alloc, disk, log, start, sealed, known, &mut seen)?;
        done += 1;
    }
    Ok(seen)
}

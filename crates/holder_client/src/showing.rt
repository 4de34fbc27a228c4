//! The lines that a key shows.
ghost use Rattle.std.specs.Prelude.{◌≡◌, ◌≢◌, ◌<◌, ◌≤◌, Err, Ok};
ghost use Rattle.cry_io.specs.Told.{WhereTold};
ghost use Rattle.cry_io.specs.Reading.{IsOnlyRead};
ghost use Rattle.commit_journal.specs.Streaming.{ShowsGiven};
ghost use Rattle.cry_base.specs.declared.roles.Role.TheVariants.{Owner};
ghost use Rattle.log_visits.specs.Answering.{AnswersAs};
ghost use Rattle.holder_client.specs.Filed.{viewed};
ghost use Rattle.log_visits.specs.Holding.{IsReadingIn};
ghost use Rattle.log_visits.specs.Judging as spec;
ghost use Rattle.log_visits.specs.Judging.{shown_with, view_with};
ghost use Rattle.holder_client.specs.Lines.{plain_view};
ghost use Rattle.holder_client.specs.Reads.{HasRead, HasStarts};
ghost use Rattle.log_visits.specs.Sights.{MayRead};
ghost use Rattle.log_visits.specs.Visiting.{Reading};
ghost use Rattle.public_fold.specs.KeyStep.{present};

use crate::file_rows::allowed_files;
use crate::lines::view_lines;
use crate::log_reader::Reader;
use crate::log_reading::{ReadLog, read_log};
use crate::reading::{open_names, read_files, viewer_of};
use crate::streamed_log::StreamedLog;
use commit_journal::PublicLog;
use cry_base::{Bundle, Line, List};
use cry_io::Disk;
use log_visits::{ClientFault, OwnersView, Records, all_sights, entry_files_of, is_nameless};
use public_fold::PublicState;
use std::alloc::Global;

/// Opens what the bundle's key opens of a log that it may read, and lists it.
fn list_records<S, R: Records<S>>(
    alloc: Global,
    bundle: &Bundle,
    state: &PublicState,
    records: &R,
    source: &mut S,
) -> Result<List<Line>, ClientFault>
    requires owner { present state.now.keys.keys Owner ≡ 0 }
    ensures answer { R.shows records.now source.old → (r : Reading) → IsReadingIn state.now (R.log records.now) r
        → MayRead r.stand.store (spec.who_of bundle.now) → AnswersAs plain_view result (viewed bundle.now r) }
    ensures seen { result ≢ Err ClientFault.Unseen }
    ensures stays { R.stays source.old source.new }
    ensures disk_fault { result ≡ Err ClientFault.DiskFault → R.faults source.old < R.faults source.new }
{
    is_nameless(state);
    let seen = all_sights(alloc, state, viewer_of(bundle))?;
    let entered = entry_files_of(alloc, state, viewer_of(bundle))?;
    let entries = entered.as_slice();
    let OwnersView { ring, names } = open_names(
        alloc,
        bundle,
        state,
        records,
        source,
        seen.as_slice(),
        entries,
    )?;
    let rows = allowed_files(alloc, seen.as_slice(), entries, state.shape().files())?;
    let files = read_files(
        alloc,
        state,
        records,
        source,
        ring,
        entries,
        rows.as_slice(),
    )?;
    Ok(view_lines(alloc, state.shape(), &names, seen.as_slice(), files)?)
}

impl Reader {
    /// What the bundle's key shows of the log whose batches were added: all that [`PublicLog::next`](commit_journal::PublicLog::next)
    /// gave, in order. Contents are read from the disk once more, by [`PublicLog::again`](commit_journal::PublicLog::again), and a disk
    /// that tells has to show the batches as they were given. The disk is never written.
    ///
    /// `Damaged` comes first, at the first byte of the first payload that doesn't fit what stands before it. The faults behind that
    /// are those of [`view`](crate::view) behind it.
    pub fn view<D: Disk>(
        &self,
        alloc: Global,
        log: &PublicLog,
        disk: &mut D,
        bundle: &Bundle,
    ) -> Result<List<Line>, ClientFault>
        requires read { HasRead self.now log.now.given }
        requires starts { HasStarts self.now log.now.starts }
        ensures answer { WhereTold (D.shown disk.old)
            (λ s. ShowsGiven log.now s → AnswersAs plain_view result (view_with bundle.now (Ok log.now.given))) }
        ensures seen { result ≢ Err ClientFault.Unseen }
        ensures read_only { IsOnlyRead D.Disk disk.old disk.new }
        ensures counts { D.faults disk.old ≤ D.faults disk.new }
        ensures disk_fault { result ≡ Err ClientFault.DiskFault → D.faults disk.old < D.faults disk.new }
    {
        self.admit(bundle)?;
        let records = StreamedLog {
            log,
            index: &self.index,
        };
        list_records(alloc, bundle, &self.state, &records, disk)
    }
}

/// What the bundle's key shows of a store: a line for each folder that is named and each file that is allowed, by the bytes of
/// their paths. The disk is never written.
///
/// `NotAStore`, `Damaged` and `Tampered` come of the log as `commit_journal::read_owner` says for the owner's bundle, and
/// `commit_journal::read_public` for a holder's; `WrongKey` of the header for the owner. Then comes `Damaged` at the first byte
/// of the first payload that doesn't fit what stands before it. Then, for a holder, `NoHolder` exactly where no published batch
/// made the holder, with the number of those that were made, and `WrongKey` exactly where the key's check isn't the one that was
/// published for the holder. Then come the visits: `Tampered` at the first byte of a record with a wrong tag, and `Damaged` at the
/// first byte of a content whose text has another form. The first of these ends the call (docs/FORMAT.md, "Reading").
pub fn view<D: Disk>(
    alloc: Global,
    disk: &mut D,
    bundle: &Bundle,
) -> Result<List<Line>, ClientFault>
    ensures verdict { WhereTold (D.shown disk.old) (λ s. AnswersAs plain_view result (shown_with bundle.now s)) }
    ensures seen { result ≢ Err ClientFault.Unseen }
    ensures read_only { IsOnlyRead D.Disk disk.old disk.new }
    ensures counts { D.faults disk.old ≤ D.faults disk.new }
    ensures disk_fault { result ≡ Err ClientFault.DiskFault → D.faults disk.old < D.faults disk.new }
{
    let ReadLog { log, kept: reader }: ReadLog<Reader> = read_log(alloc, disk, bundle)?;
    reader.view(alloc, &log, disk, bundle)
}

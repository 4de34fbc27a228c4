//! All that a bundle's key leads to.
ghost use Rattle.std.specs.Prelude.{◌≡◌, ◌≢◌, ◌<◌, ◌≤◌, Err, IfOk, List as TheList, Ok};
ghost use Rattle.cry_io.specs.Told.{WhereTold};
ghost use Rattle.commit_journal.specs.Placed.{PlainPlaced};
ghost use Rattle.cry_io.specs.Reading.{IsOnlyRead};
ghost use Rattle.log_visits.specs.Judging.{read_with};
ghost use Rattle.log_visits.specs.Placing.{log_links};
ghost use Rattle.holder_client.specs.Reads.{HasRead};
ghost use Rattle.log_visits.specs.Visiting.{Reading};
ghost use Rattle.public_fold.specs.KeyStep.{present};
ghost use Rattle.trail_audit.specs.Auditing.{bundle_key as the_bundle_key};
ghost use Rattle.trail_audit.specs.Derived.{AnswersKeys, MayAnswer};
ghost use Rattle.trail_audit.specs.Grouped.{HasGroups, key_source, source_of_link};

use crate::Seen;
use crate::kept::Kept;
use crate::placed_records::Links;
use crate::right_key::RightKey;
use crate::seen_log::see_log;
use crate::trails::{KnownKeys, right_keys};
use cry_base::{Bundle, HolderId, List, Role, Serial};
use cry_io::Disk;
use holder_client::{ReadLog, Reader, read_log};
use log_visits::ClientFault;
use public_fold::PublicState;
use std::alloc::Global;

/// The serial of the holder's key, and 0 where the holder wasn't made.
#[tactic(auto, unfolding(public_fold::specs::KeyStep::present))]
fn serial_of(state: &PublicState, role: Role) -> Serial
    ensures { result.0 ≡ present state.now.keys.keys role }
{
    match state.present(role) {
        Some(serial) => serial,
        None => Serial(0),
    }
}

/// The bundle's key, with its number and its serial.
#[tactic(auto, unfolding(crate::specs::Auditing::bundle_key))]
fn bundle_key(bundle: &Bundle, state: &PublicState) -> RightKey
    ensures { (r : Reading) → r.stand.keys.keys ≡ state.now.keys.keys → result ≡ the_bundle_key bundle.now r }
{
    match bundle {
        Bundle::Owner { key } => RightKey {
            id: 0,
            serial: Serial(0),
            bytes: *key,
        },
        Bundle::Holder { holder, key } => RightKey {
            id: holder.0,
            serial: serial_of(state, Role::Holder(HolderId(holder.0))),
            bytes: *key,
        },
    }
}

/// The keys to which the bundle's leads in a log that it may read. The reader and the links are let go.
fn known_keys(
    alloc: Global,
    bundle: &Bundle,
    reader: Reader,
    links: Links,
) -> Result<KnownKeys, ClientFault>
    requires kept { (log : TheList PlainPlaced) × HasRead reader log × HasGroups source_of_link links (log_links log) }
    ensures answer { (log : TheList PlainPlaced) → HasRead reader log → HasGroups source_of_link links (log_links log)
        → AnswersKeys (read_with bundle.now (Ok log)) bundle.now log result }
    ensures grouped { IfOk result (λ known. HasGroups key_source known.groups known.keys.items) }
    ensures no_disk { result ≢ Err ClientFault.DiskFault }
    ensures seen { result ≢ Err ClientFault.Unseen }
{
    reader.admit(bundle)?;
    let own = bundle_key(bundle, reader.state());
    right_keys(alloc, &links, own)
}

/// The names and files that the bundle's key leads to in a store, by the batches that wrote them: each content that the log has
/// of a folder or a file, opened with every right key that it says it is sealed under. A key is right where links lead to it from
/// the bundle's, each of them with the right tag under the key at which it begins. Holders' sealed keys are opened and not shown.
/// The disk is never written.
///
/// Before any record is opened come the faults of `holder_client::view` that come before its visits: those of the log, of a
/// payload that doesn't fit, `NoHolder` and `WrongKey`. Then `Tampered` comes only for a record that begins at or is sealed under
/// a right key and has a wrong tag under it, with the place of its first byte, and `Damaged` only for a content with a right
/// tag whose text isn't of its form. Where such a record stands, the answer isn't Ok; which of several is told is free. `Unseen`
/// never comes. `DiskFault` and `OutOfMemory` may come at any time.
pub fn audit<D: Disk>(
    alloc: Global,
    disk: &mut D,
    bundle: &Bundle,
) -> Result<List<Seen>, ClientFault>
    ensures verdict { WhereTold (D.shown disk.old) (λ s. MayAnswer bundle.now s result) }
    ensures seen { result ≢ Err ClientFault.Unseen }
    ensures read_only { IsOnlyRead D.Disk disk.old disk.new }
    ensures counts { D.faults disk.old ≤ D.faults disk.new }
    ensures disk_fault { result ≡ Err ClientFault.DiskFault → D.faults disk.old < D.faults disk.new }
{
    let ReadLog { log, kept }: ReadLog<Kept> = read_log(alloc, disk, bundle)?;
    let Kept {
        reader,
        links,
        seals,
        starts,
        last,
    } = kept;
    let known = known_keys(alloc, bundle, reader, links)?;
    see_log(
        alloc,
        disk,
        &log,
        last,
        seals.as_slice(),
        starts.as_slice(),
        &known,
    )
}
